//! The kits of all jobs.

ghost use Rattle.std.specs.Prelude.{◌≡◌, All, IfOk, length};
ghost use Rattle.satip_real_desk.specs.RealViews.{AreFreshKits};
ghost use Rattle.satip_real_desk.specs.Unused.{IsUnusedWorker, IsUnusedPump, IsUnusedTick};

use crate::fault::KitsFault;
use crate::ready::{first_lines, recording_lengths, report_ready};
use crate::settings::Told;
use crate::shared::Shared;
use satip_datagrams::RealOutlet;
use satip_desk::{JobKits, PumpKit, TickKit, WorkerKit};
use satip_host::{RealClock, read_key};
use satip_playout::{RealPacer, RealStore};
use satip_real::{Carried, RealDoors};
use satip_tune::Config;
use std::alloc::Global;
use std::sync::Wait;
use std::thread::Threads;

/// The kits of jobs over the system. Their doors share two listeners, their outlets one table of
/// UDP sockets.
pub type RealJobs<R> = JobKits<RealDoors, RealOutlet<R>, RealPacer<R>, RealStore, RealClock>;

fn worker_kit<R: Wait + Drop>(
    host: HostRuntime,
    rt: R,
    shared: &Shared,
    accepts: u32,
    place: usize,
) -> Result<WorkerKit<RealDoors, RealOutlet<R>, RealPacer<R>>, KitsFault>
    ensures unused { IfOk result (λ kit. IsUnusedWorker accepts kit) }
{
    let Ok(key) = read_key(&host) else {
        return Err(KitsFault::Key);
    };
    Ok(WorkerKit {
        doors: shared.doors(host, accepts, place)?,
        outlet: shared.outlet(rt)?,
        pacer: shared.worker_pacer(host)?,
        key,
    })
}

fn pump_kit<R: Wait + Copy + Drop>(
    host: HostRuntime,
    rt: R,
    shared: &Shared,
    place: usize,
) -> Result<PumpKit<RealStore, RealOutlet<R>, RealPacer<R>>, KitsFault>
    ensures unused { IfOk result (λ kit. IsUnusedPump kit) }
{
    let progress = shared.progress(host.alloc(), place)?;
    let pacer = shared.pump_pacer(host, rt, &progress, place)?;
    Ok(PumpKit {
        store: shared.store(host, Some(progress))?,
        outlet: shared.outlet(rt)?,
        pacer,
    })
}

fn tick_kit<R: Wait + Drop>(
    host: HostRuntime,
    rt: R,
    shared: &Shared,
) -> Result<TickKit<RealClock, RealOutlet<R>, RealPacer<R>>, KitsFault>
    ensures unused { IfOk result (λ kit. IsUnusedTick kit) }
{
    Ok(TickKit {
        clock: shared.clock(host),
        outlet: shared.outlet(rt)?,
        pacer: shared.tick_pacer(host)?,
    })
}

fn worker_kits<R: Wait + Copy + Drop>(
    host: HostRuntime,
    rt: R,
    alloc: Global,
    shared: &Shared,
    count: u16,
    accepts: u32,
) -> Result<Vec<WorkerKit<RealDoors, RealOutlet<R>, RealPacer<R>>>, KitsFault>
    ensures count { IfOk result (λ kits. length kits.items ≡ count) }
    ensures unused { IfOk result (λ kits. All (IsUnusedWorker accepts) kits.items) }
{
    let mut kits = Vec::new(alloc);
    for place in 0..count {
        kits.push(worker_kit(host, rt, shared, accepts, place as usize)?)?;
    }
    Ok(kits)
}

fn pump_kits<R: Wait + Copy + Drop>(
    host: HostRuntime,
    rt: R,
    alloc: Global,
    shared: &Shared,
    count: usize,
) -> Result<Vec<PumpKit<RealStore, RealOutlet<R>, RealPacer<R>>>, KitsFault>
    ensures count { IfOk result (λ kits. length kits.items ≡ count) }
    ensures unused { IfOk result (λ kits. All IsUnusedPump kits.items) }
{
    let mut kits = Vec::new(alloc);
    for place in 0..count {
        kits.push(pump_kit(host, rt, shared, place)?)?;
    }
    Ok(kits)
}

/// Makes the kits of a configuration, for a server whose RTSP connections carry this, of a program
/// with this line of its name and version. It reads the variables of the environment, and goes on as
/// `kits_told` does.
pub fn real_kits<R: Wait + Threads + Copy + Drop>(
    host: HostRuntime,
    rt: R,
    config: &Config,
    accepts: u32,
    carried: Carried,
    version: &'static [u8],
) -> Result<RealJobs<R>, KitsFault>
    ensures workers { IfOk result (λ kits. length kits.workers.items ≡ config.now.workers) }
    ensures pumps { IfOk result (λ kits. length kits.pumps.items ≡ length config.now.fronts) }
    ensures unused_workers { IfOk result (λ kits. All (IsUnusedWorker accepts) kits.workers.items) }
    ensures unused_pumps { IfOk result (λ kits. All IsUnusedPump kits.pumps.items) }
    ensures unused_tick { IfOk result (λ kits. IsUnusedTick kits.tick) }
    ensures fresh { IfOk result (AreFreshKits accepts) }
{
    let told = Told::read(&host, host.alloc(), carried, version)?;
    kits_told(host, rt, config, accepts, told)
}

/// Makes the kits of a configuration, for a server that is told this beside it. It binds the address
/// and ports, looks for each recording, and reads a key for each worker. It logs on standard error
/// which recordings can't be played, and then that the server is ready. Then it begins to write the
/// status file, if there is to be one. Each worker's doors end after `accepts` connections, or never
/// if it is 0.
pub fn kits_told<R: Wait + Threads + Copy + Drop>(
    host: HostRuntime,
    rt: R,
    config: &Config,
    accepts: u32,
    told: Told,
) -> Result<RealJobs<R>, KitsFault>
    ensures workers { IfOk result (λ kits. length kits.workers.items ≡ config.now.workers) }
    ensures pumps { IfOk result (λ kits. length kits.pumps.items ≡ length config.now.fronts) }
    ensures unused_workers { IfOk result (λ kits. All (IsUnusedWorker accepts) kits.workers.items) }
    ensures unused_pumps { IfOk result (λ kits. All IsUnusedPump kits.pumps.items) }
    ensures unused_tick { IfOk result (λ kits. IsUnusedTick kits.tick) }
    ensures fresh { IfOk result (AreFreshKits accepts) }
{
    let alloc = host.alloc();
    let shared = Shared::open(&host, alloc, config, told)?;
    let lengths = recording_lengths(&host, &shared.store(host, None)?, &config.files)?;
    let kits = JobKits {
        workers: worker_kits(host, rt, alloc, &shared, config.workers, accepts)?,
        pumps: pump_kits(host, rt, alloc, &shared, config.fronts.len())?,
        tick: tick_kit(host, rt, &shared)?,
    };
    report_ready(&host, config, &shared, &lengths);
    shared.watch(&host, &rt, first_lines(&lengths))?;
    Ok(kits)
}
