//! The ends of jobs over a service that never returns out of memory.

ghost use Rattle.std.specs.Prelude.{◌≡◌};
ghost use Rattle.satip_serve.specs.Ends.{end_of_worker, end_of_job};

use satip_jobs::ServeEnd;
use satip_pump::JobEnd;
use satip_worker::WorkerEnd;

// Returns how the job of a worker ended.
pub(crate) fn tell_worker(end: WorkerEnd) -> ServeEnd
    ensures end { result ≡ end_of_worker end }
{
    match end {
        WorkerEnd::Closed => ServeEnd::Served,
        WorkerEnd::DoorsFault => ServeEnd::DoorsFault,
        WorkerEnd::Spent => ServeEnd::HistoryFull,
        WorkerEnd::Want => ServeEnd::HistoryFull,
    }
}

// Returns how the job of a pump or of the ticker ended.
pub(crate) fn tell_job(end: JobEnd) -> ServeEnd
    ensures end { result ≡ end_of_job end }
{
    match end {
        JobEnd::Stopped => ServeEnd::Served,
        JobEnd::Spent => ServeEnd::HistoryFull,
        JobEnd::Want => ServeEnd::HistoryFull,
    }
}
