//! The ends of jobs.

ghost use Rattle.std.specs.Prelude.{◌≡◌};
ghost use Rattle.satip_pump.specs.Ends.{ended_by};

use satip_plain::ServiceFault;

/// How the job of a pump or of the ticker ended.
#[derive(Clone, Copy, Debug, PartialEq, Eq)]
pub enum JobEnd {
    /// The service said that it stops.
    Stopped,
    /// The history is full.
    Spent,
    /// Memory was refused.
    Want,
}

/// Returns the end of a job whose service had no room for an event, or no memory.
pub(crate) fn end_of(fault: ServiceFault) -> JobEnd
    ensures end { result ≡ ended_by fault }
{
    match fault {
        ServiceFault::Spent => JobEnd::Spent,
        ServiceFault::Want => JobEnd::Want,
    }
}
