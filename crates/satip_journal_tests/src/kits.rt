//! The kits of jobs over memory.

ghost use Rattle.std.specs.Prelude.{◌≡◌, [], length};

use satip_desk::{JobJournal, JobKits, TickKit, WorkerKit};
use satip_fixtures::CLIENT;
use satip_fixtures::texts::OPTIONS;
use satip_memory::{MemoryClock, MemoryConn, MemoryDoors, MemoryOutlet, MemoryPacer, MemorySink};
use satip_memory_desk::MemoryJobs;
use satip_world::DoorKind;
use std::alloc::Global;
use std::process::Abort;

/// The journal of a job over memory.
pub(crate) type MemoryJournal = JobJournal<MemorySink>;

type MemoryWorker = WorkerKit<MemoryDoors, MemoryOutlet, MemoryPacer>;

type MemoryTicker = TickKit<MemoryClock, MemoryOutlet, MemoryPacer>;

// Returns doors by which one connection comes, which asks for options.
fn doors(rt: &impl Abort, alloc: Global) -> MemoryDoors {
    let Ok(conn) = MemoryConn::make(alloc, &[OPTIONS], &[], &[], 0) else {
        panic!(rt; "out of memory");
    };
    let mut doors = MemoryDoors::make(alloc, 1, &[], &[]).expect(rt, "out of memory");
    doors
        .add(DoorKind::Rtsp, CLIENT, conn)
        .expect(rt, "out of memory");
    doors
}

// Returns the kit of a worker by whose doors one connection comes.
fn worker(rt: &impl Abort, alloc: Global) -> MemoryWorker {
    WorkerKit {
        doors: doors(rt, alloc),
        outlet: MemoryOutlet::make(alloc, &[]).expect(rt, "out of memory"),
        pacer: MemoryPacer::new(),
        key: [7; 32],
    }
}

// Returns the kit of a ticker whose clock shows three moments.
fn ticker(rt: &impl Abort, alloc: Global) -> MemoryTicker {
    TickKit {
        clock: MemoryClock::make(alloc, &[1000, 1020, 1040]).expect(rt, "out of memory"),
        outlet: MemoryOutlet::make(alloc, &[]).expect(rt, "out of memory"),
        pacer: MemoryPacer::new(),
    }
}

// Returns this number of kits.
fn worker_kits(rt: &impl Abort, alloc: Global, count: u16) -> Vec<MemoryWorker>
    ensures count { length result.items ≡ count }
{
    let mut kits = Vec::new(alloc);
    for _made in 0..count {
        let Ok(()) = kits.push(worker(rt, alloc)) else {
            panic!(rt; "out of memory");
        };
    }
    kits
}

/// Returns the kits of this number of workers and of a ticker.
pub(crate) fn make_jobs(rt: &impl Abort, alloc: Global, workers: u16) -> MemoryJobs
    ensures workers { length result.workers.items ≡ workers }
    ensures pumps { result.pumps.items ≡ [] }
{
    JobKits {
        workers: worker_kits(rt, alloc, workers),
        pumps: Vec::new(alloc),
        tick: ticker(rt, alloc),
    }
}
