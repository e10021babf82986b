//! `record`: takes a clock, a connection and an inlet from the desk, and records with them.

ghost use Rattle.std.specs.Prelude.{◌≡◌, ◌≤◌};
ghost use Rattle.satip_base.specs.Streams.{Feed};
ghost use Rattle.satip_config.specs.Lines.{Says};
ghost use Rattle.satip_config.specs.Outcomes.{line_of, status_of};
ghost use Rattle.satip_recorder.specs.Ends.{RecordingEnds, left_of};
ghost use Rattle.satip_recorder.specs.Outsides.{device_tells};
ghost use Rattle.satip_recorder.specs.Words.{wanted};
ghost use Rattle.satip_desk.specs.Handed.{nothing_handed};

use crate::outcome::outcome_of;
use crate::recording_run::record_by;
use crate::wish::Wish;
use crate::words::Recording;
use satip_base::{Failed, Sink};
use satip_config::Outcome;
use satip_desk::Desk;
use std::alloc::Global;

/// The outcome of a recording, with the connection, the inlet and the clock that the desk gave for
/// it.
pub struct Recorded<K: Desk> {
    pub outcome: Outcome,
    pub wire: Option<K::Wire>,
    pub inlet: Option<K::Inlet>,
    pub moment: Option<K::Moment>,
}

/// Records with the clock, the connection to the address and the inlet that the desk gives, in this
/// order. The outcome is `PeerFault` if the desk doesn't give the connection or the inlet. Logs a
/// line for each gap, and then the line of the outcome.
pub fn record<K: Desk, O: Sink, E: Sink>(
    alloc: Global,
    recording: &Recording,
    output: &mut O,
    errors: &mut E,
    desk: &mut K,
) -> Recorded<K>
    requires some { 1 ≤ recording.now.count }
    requires few { recording.now.count ≤ 1000000 }
    requires new { (K.desk desk.old).handed ≡ nothing_handed }
    ensures texts { (K.desk desk.new).text ≡ (K.desk desk.old).text }
    ensures kits { (K.desk desk.new).given ≡ (K.desk desk.old).given }
    ensures journaled { (K.desk desk.new).journaled ≡ (K.desk desk.old).journaled }
    ensures ends { (input : Feed)
        → RecordingEnds (device_tells K.Wire.tells K.Inlet.tells O.tells E.tells)
        (wanted recording.now) (K.desk desk.old) (K.desk desk.new)
        (record { input = input; output = O.drain output.old; errors = E.drain errors.old })
        (record { input = input; output = O.drain output.new; errors = E.drain errors.new })
        (left_of K.Wire.line K.Moment.dial K.Inlet.inbox result.wire result.moment result.inlet)
        (status_of result.outcome) }
{
    let moment = desk.moment();
    let wire = match desk.dial(recording.to) {
        Ok(wire) => wire,
        Err(Failed) => return not_given(None, moment, errors),
    };
    let inlet = match desk.inlet() {
        Ok(inlet) => inlet,
        Err(Failed) => return not_given(Some(wire), moment, errors),
    };
    let wish = Wish {
        address: recording.address,
        query: recording.query,
        count: recording.count,
    };
    let recorded = record_by(alloc, wire, inlet, moment, &wish, output, errors);
    Recorded {
        outcome: outcome_of(recorded.end),
        wire: Some(recorded.wire),
        inlet: Some(recorded.inlet),
        moment: Some(recorded.moment),
    }
}

// Returns the outcome of a recording for which the desk gave no connection or no inlet, and logs
// its line.
fn not_given<K: Desk, E: Sink>(
    wire: Option<K::Wire>,
    moment: K::Moment,
    errors: &mut E,
) -> Recorded<K>
    ensures outcome { result.outcome ≡ Outcome.PeerFault }
    ensures wire { result.wire ≡ wire }
    ensures moment { result.moment ≡ Some moment }
    ensures inlet { result.inlet ≡ None }
    ensures said { Says E.tells (E.drain errors.old) (E.drain errors.new)
        (line_of Outcome.PeerFault) }
{
    Outcome::PeerFault.tell(errors);
    Recorded {
        outcome: Outcome::PeerFault,
        wire,
        inlet: None,
        moment: Some(moment),
    }
}
