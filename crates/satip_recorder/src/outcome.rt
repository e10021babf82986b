//! The outcome of a recording.

ghost use Rattle.std.specs.Prelude.{◌≡◌};
ghost use Rattle.satip_recorder.specs.Outcomes.{outcome_of as outcome_for};

use satip_client::RecordEnd;
use satip_config::Outcome;

/// Returns the outcome of a recording that ends so.
pub(crate) fn outcome_of(end: RecordEnd) -> Outcome
    ensures outcome { result ≡ outcome_for end }
{
    match end {
        RecordEnd::Done => Outcome::Done,
        RecordEnd::OutputFault => Outcome::OutputFault,
        RecordEnd::Refused(code) => Outcome::Refused(code),
        RecordEnd::BadReply => Outcome::BadReply,
        RecordEnd::Silent => Outcome::Silent,
        RecordEnd::PeerFault => Outcome::PeerFault,
        RecordEnd::Closed => Outcome::Closed,
        RecordEnd::OutOfMemory => Outcome::OutOfMemory,
    }
}
