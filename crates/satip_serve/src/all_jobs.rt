//! The server with all its jobs, from the first reading of the clock to the last join.

ghost use Rattle.std.specs.Prelude.{◌≡◌, ◌≤◌, length, vec_capacity, IfOk, IfErr};
ghost use Rattle.satip_fronts.specs.FrontEnds.{IsNumbered};
ghost use Rattle.satip_plain.specs.Histories.{Legal};
ghost use Rattle.satip_desk.specs.Fresh.{AreFresh, FreshJobs, Unused};
ghost use Rattle.satip_serve.specs.Ran.{AreAtLimit, CanRun, HaveRun};
ghost use Rattle.satip_serve.specs.Spaces.{IsSpaceFor};
ghost use Rattle.satip_desk.specs.Views.{jobs_view};

use crate::run::run_services;
use crate::space::{ServeSpace, make_gears, take_space};
use satip_base::Want;
use satip_config::Config;
use satip_desk::{Devices, JobKits, Jobs};
use satip_jobs::{Posts, ServeEnd};
use satip_shared::{Caller, SharedPass, SharedServer, make};
use satip_world::Clock;
use std::alloc::Global;
use std::sync::Wait;
use std::thread::Threads;

/// The remains when all jobs have ended: the server, the one pass into which all others are joined,
/// and the kits.
#[derive(Drop)]
pub struct Last<J> {
    pub server: SharedServer,
    pub pass: SharedPass,
    pub jobs: J,
}

// All memory that the jobs take.
#[derive(Drop)]
struct Memory<S> {
    pub space: S,
    pub worker_gears: Vec<()>,
    pub pump_gears: Vec<()>,
}

fn take_memory<'a, R: Wait + Sync, K: Devices>(
    alloc: Global,
    workers: usize,
    pumps: usize,
) -> Result<Memory<ServeSpace<Caller<'a, R>, K>>, Want>
    ensures workers { IfOk result (λ memory. IsSpaceFor workers memory.worker_gears.items
        memory.space.worker_rooms.items memory.space.workers.items
        (vec_capacity memory.space.workers)) }
    ensures pumps { IfOk result (λ memory. IsSpaceFor pumps memory.pump_gears.items
        memory.space.pump_rooms.items memory.space.pumps.items
        (vec_capacity memory.space.pumps)) }
{
    Ok(Memory {
        space: take_space::<Caller<'a, R>, K>(alloc, workers, pumps)?,
        worker_gears: make_gears(alloc, workers)?,
        pump_gears: make_gears(alloc, pumps)?,
    })
}

// Takes all memory and runs the jobs. Gives the kits back if memory was refused.
fn serve_all<R: Threads + Wait + Sync, K: Devices>(
    rt: &R,
    alloc: Global,
    server: &SharedServer,
    pass: SharedPass,
    jobs: Jobs<K>,
) -> Result<(SharedPass, Jobs<K>, ServeEnd), Jobs<K>>
    requires ready { CanRun Legal server.now pass jobs }
    requires few { length jobs.pumps.items ≤ 16 }
    ensures ran { IfOk result (λ served. HaveRun K.Doors.Conn.tells K.Outlet.tells
        (FreshJobs server.now.setting.start) server.now
        (jobs_view K.Doors.hall K.Outlet.outbox K.Store.shelf K.Clock.dial jobs) served.0
        (jobs_view K.Doors.hall K.Outlet.outbox K.Store.shelf K.Clock.dial served.1) served.2) }
    ensures at_limit { IfOk result (λ served. AreAtLimit K.Doors.by_limit served.2
        (jobs_view K.Doors.hall K.Outlet.outbox K.Store.shelf K.Clock.dial served.1).workers) }
    ensures unused { IfErr result (λ back. back ≡ jobs) }
{
    match take_memory::<R, K>(alloc, jobs.workers.len(), jobs.pumps.len()) {
        Ok(memory) => {
            let Memory {
                space,
                worker_gears,
                pump_gears,
            } = memory;
            let posts = Posts {
                workers: jobs.workers,
                worker_gears,
                pumps: jobs.pumps,
                pump_gears,
                ticker: jobs.tick,
                ticker_gear: (),
            };
            let root = Caller { rt, server, pass };
            let (root, posts, end) = run_services(rt, root, posts, space);
            let Caller {
                rt: _,
                server: _,
                pass,
            } = root;
            let jobs = JobKits {
                workers: posts.workers,
                pumps: posts.pumps,
                tick: posts.ticker,
            };
            Ok((pass, jobs, end))
        }
        Err(Want) => Err(jobs),
    }
}

/// Runs all jobs in parallel: workers, pumps in the order of front ends, and the ticker, whose
/// clock is read first, for the start. Splits off a caller from caller 0 for each job. After the
/// last worker it joins the workers' callers, and caller 0 submits the one stop while pumps and
/// ticker still run. Then it joins theirs. Callers are joined in the order of jobs. Blocks.
///
/// All memory is taken before any job begins. If it was refused, returns the kits; then only the
/// clock was used, once.
pub fn serve<R: Threads + Wait + Sync, K: Devices>(
    rt: &R,
    alloc: Global,
    config: Config,
    mut jobs: Jobs<K>,
) -> Result<(Last<Jobs<K>>, ServeEnd), Jobs<K>>
    requires few { length config.fronts ≤ 16 }
    requires numbered { IsNumbered 1 config.fronts }
    requires received { length config.muxes ≤ 256 }
    requires workers { length jobs.workers.items ≡ config.workers }
    requires pumps { length jobs.pumps.items ≡ length config.fronts }

    ensures config { IfOk result (λ served. served.0.server.setting.config ≡ config) }
    // the workers' keys and the pumps' recordings come back in order; it was a serve run if the
    // kits were fresh
    ensures ran { IfOk result (λ served. HaveRun K.Doors.Conn.tells K.Outlet.tells AreFresh
        served.0.server
        (jobs_view K.Doors.hall K.Outlet.outbox K.Store.shelf K.Clock.dial jobs) served.0.pass
        (jobs_view K.Doors.hall K.Outlet.outbox K.Store.shelf K.Clock.dial served.0.jobs)
        served.1) }
    ensures at_limit { IfOk result (λ served. AreAtLimit K.Doors.by_limit served.1
        (jobs_view K.Doors.hall K.Outlet.outbox K.Store.shelf K.Clock.dial served.0.jobs).workers) }
    ensures unused { IfErr result (Unused K.Clock.dial jobs) }
{
    let start = jobs.tick.clock.now();
    match make(alloc, config, start) {
        Ok((server, pass)) => match serve_all::<R, K>(rt, alloc, &server, pass, jobs) {
            Ok((pass, jobs, end)) => Ok((Last { server, pass, jobs }, end)),
            Err(jobs) => Err(jobs),
        },
        Err(Want) => Err(jobs),
    }
}
