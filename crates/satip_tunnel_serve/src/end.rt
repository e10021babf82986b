//! The ends of a tunnel's jobs.

ghost use Rattle.std.specs.Prelude.{◌≡◌};
ghost use Rattle.satip_serve.specs.Ends.{end_of_worker};

use satip_jobs::ServeEnd;
use satip_worker::WorkerEnd;

// Returns how the job of a worker ended.
pub(crate) fn tell_worker(end: WorkerEnd) -> ServeEnd
    ensures end { result ≡ end_of_worker end }
{
    match end {
        WorkerEnd::Closed => ServeEnd::Served,
        WorkerEnd::DoorsFault => ServeEnd::DoorsFault,
        WorkerEnd::Spent => ServeEnd::HistoryFull,
        WorkerEnd::Want => ServeEnd::HistoryFull,
    }
}
