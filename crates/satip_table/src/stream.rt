//! Streams.

ghost use Rattle.std.specs.Prelude.{◌≡◌};
ghost use Rattle.satip_table.specs.Streams.{fresh};

use satip_base::SessionId;
use satip_pids::PidSet;
use satip_tune::Tuning;

/// A living stream: its number from 1, the session that owns it, its tuning and front end if it has
/// them, and the PIDs that it selects.
#[derive(Debug, Drop)]
pub struct Stream {
    pub number: u16,
    pub owner: SessionId,
    pub tuning: Option<Tuning>,
    pub front: Option<u16>,
    pub pids: PidSet,
}

/// Returns a stream that isn't tuned and selects no PID.
#[tactic(auto, unfolding(crate::specs::Streams::fresh))]
pub fn new_stream(number: u16, owner: SessionId) -> Stream
    ensures fresh { result ≡ fresh number owner }
{
    Stream {
        number,
        owner,
        tuning: None,
        front: None,
        pids: PidSet::new(),
    }
}

/// Makes this a stream that isn't tuned and selects no PID, and keeps its number.
#[tactic(auto, unfolding(crate::specs::Streams::fresh))]
pub fn begin(stream: &mut Stream, owner: SessionId)
    ensures fresh { stream.new ≡ fresh stream.old.number owner }
{
    stream.owner = owner;
    stream.tuning = None;
    stream.front = None;
    stream.pids = PidSet::new();
}

/// Sets the tuning, front end and PID set of a stream.
pub fn retune(stream: &mut Stream, tuning: Option<Tuning>, front: Option<u16>, pids: PidSet)
    ensures tuned { stream.new
        ≡ record stream.old { tuning = tuning; front = front; pids = pids } }
{
    stream.tuning = tuning;
    stream.front = front;
    stream.pids = pids;
}
