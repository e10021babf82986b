//! A tunnel with all its jobs, from the first reading of the clock to the last join.

ghost use Rattle.std.specs.Prelude.{◌≡◌, ◌≤◌, length, vec_capacity, IfOk, IfErr};
ghost use Rattle.std.specs.Thread.{IsSync};
ghost use Rattle.satip_fronts.specs.FrontEnds.{IsNumbered};
ghost use Rattle.satip_desk.specs.Fresh.{AreFresh, FreshJobs, Unused};
ghost use Rattle.satip_desk.specs.Views.{jobs_view, worker_view};
ghost use Rattle.satip_serve.specs.Ran.{CanRun};
ghost use Rattle.satip_serve.specs.Spaces.{IsSpaceFor};
ghost use Rattle.satip_interleave.specs.Histories.{TunnelLegal};
ghost use Rattle.satip_tunnel.specs.Seats.{seated};
ghost use Rattle.satip_tunnel_serve.specs.Deeds.{WorkedAtSeat, doors_tell};
ghost use Rattle.satip_tunnel_serve.specs.Ran.{HaveTunneled};

use crate::run::{TunnelSpace, run_in_tunnel};
use crate::seat::work_at_seat;
use crate::space::{Memory, take_memory};
use satip_base::Want;
use satip_config::Config;
use satip_desk::{Devices, JobKits, Jobs, WorkerKit};
use satip_interleave::{SharedTunnel, TunnelCaller, TunnelPass, make};
use satip_jobs::{Posts, Seat, ServeEnd};
use satip_tunnel::WorkerRoom;
use satip_world::{Clock, Doors, MuxStore, Outlet, Pacer};
use std::alloc::Global;
use std::sync::Wait;
use std::thread::Threads;

/// The remains when all jobs have ended: the tunnel, the one pass into which all others are joined,
/// and the kits.
#[derive(Drop)]
pub struct TunnelLast<J> {
    pub server: SharedTunnel,
    pub pass: TunnelPass,
    pub jobs: J,
}

// Runs the jobs.
fn run_all<
    'a,
    R: Threads + Wait + Sync,
    D: Doors + Send + Drop,
    O: Outlet + Send + Drop,
    P: Pacer + Send + Drop,
    M: MuxStore + Send + Drop,
    C: Clock + Send + Drop,
>(
    rt: &'a R,
    server: &'a SharedTunnel,
    pass: TunnelPass,
    jobs: JobKits<D, O, P, M, C>,
    memory: Memory<TunnelSpace<TunnelCaller<'a, R>, D, O, WorkerRoom, P, M>>,
) -> (TunnelPass, JobKits<D, O, P, M, C>, ServeEnd)
    requires ready { CanRun TunnelLegal server.now pass jobs }
    requires worker_space { IsSpaceFor (length jobs.workers.items) memory.worker_gears.items
        memory.space.worker_rooms.items memory.space.workers.items
        (vec_capacity memory.space.workers) }
    requires pump_space { IsSpaceFor (length jobs.pumps.items) memory.pump_gears.items
        memory.space.pump_rooms.items memory.space.pumps.items
        (vec_capacity memory.space.pumps) }
    requires few { length jobs.pumps.items ≤ 16 }
    ensures ran { HaveTunneled (doors_tell D.Conn.tells D.by_limit)
        (FreshJobs server.now.setting.start) server.now
        (jobs_view D.hall O.outbox M.shelf C.dial jobs) result.0
        (jobs_view D.hall O.outbox M.shelf C.dial result.1) result.2 }
{
    let Memory {
        space,
        worker_gears,
        pump_gears,
    } = memory;
    let posts = Posts {
        workers: jobs.workers,
        worker_gears,
        pumps: jobs.pumps,
        pump_gears,
        ticker: jobs.tick,
        ticker_gear: (),
    };
    let root = TunnelCaller { rt, server, pass };
    let (root, posts, end) = run_in_tunnel(
        rt,
        root,
        posts,
        space,
        &|seat: &mut Seat<TunnelCaller<R>, WorkerKit<D, O, P>, WorkerRoom>|
            requires { IsSync R.row }
            ensures { WorkedAtSeat (doors_tell D.Conn.tells D.by_limit)
                seat.old.number seat.new.number
                (worker_view D.hall O.outbox seat.old.kit)
                (seated seat.old.caller.server.now seat.old.caller.pass)
                (worker_view D.hall O.outbox seat.new.kit)
                (seated seat.new.caller.server.now seat.new.caller.pass) seat.new.end }
        { work_at_seat(seat) },
    );
    let TunnelCaller {
        rt: _,
        server: _,
        pass,
    } = root;
    let jobs = JobKits {
        workers: posts.workers,
        pumps: posts.pumps,
        tick: posts.ticker,
    };
    (pass, jobs, end)
}

// Takes all memory and runs the jobs. Gives the kits back if memory was refused.
fn serve_all<R: Threads + Wait + Sync, K: Devices>(
    rt: &R,
    alloc: Global,
    server: &SharedTunnel,
    pass: TunnelPass,
    jobs: Jobs<K>,
) -> Result<(TunnelPass, Jobs<K>, ServeEnd), Jobs<K>>
    requires ready { CanRun TunnelLegal server.now pass jobs }
    requires few { length jobs.pumps.items ≤ 16 }
    ensures ran { IfOk result (λ served. HaveTunneled
        (doors_tell K.Doors.Conn.tells K.Doors.by_limit)
        (FreshJobs server.now.setting.start) server.now
        (jobs_view K.Doors.hall K.Outlet.outbox K.Store.shelf K.Clock.dial jobs) served.0
        (jobs_view K.Doors.hall K.Outlet.outbox K.Store.shelf K.Clock.dial served.1) served.2) }
    ensures unused { IfErr result (λ back. back ≡ jobs) }
{
    match take_memory::<TunnelCaller<R>, K>(alloc, jobs.workers.len(), jobs.pumps.len()) {
        Ok(memory) => Ok(run_all(rt, server, pass, jobs, memory)),
        Err(Want) => Err(jobs),
    }
}

/// Runs all jobs in parallel, with RTP and RTCP inside the RTSP connections: workers, pumps in the
/// order of front ends, and the ticker, whose clock is read first, for the start. Splits off a
/// caller from caller 0 for each job. After the last worker it joins the workers' callers, and
/// caller 0 submits the one stop while pumps and ticker still run. Then it joins theirs. Callers
/// are joined in the order of jobs. No outlet is used. Blocks.
///
/// All memory is taken before any job begins. If it was refused, returns the kits; then only the
/// clock was used, once.
pub fn serve_through_tunnel<R: Threads + Wait + Sync, K: Devices>(
    rt: &R,
    alloc: Global,
    config: Config,
    mut jobs: Jobs<K>,
) -> Result<(TunnelLast<Jobs<K>>, ServeEnd), Jobs<K>>
    requires few { length config.fronts ≤ 16 }
    requires numbered { IsNumbered 1 config.fronts }
    requires received { length config.muxes ≤ 256 }
    requires workers { length jobs.workers.items ≡ config.workers }
    requires pumps { length jobs.pumps.items ≡ length config.fronts }

    ensures config { IfOk result (λ served. served.0.server.setting.config ≡ config) }
    // the workers' keys, the pumps' recordings and what the outlets show come back in order; it was
    // a run of the tunnel if the kits were fresh; if all were served and doors end by their limit
    // alone, the doors of each worker are at it
    ensures ran { IfOk result (λ served. HaveTunneled
        (doors_tell K.Doors.Conn.tells K.Doors.by_limit) AreFresh served.0.server
        (jobs_view K.Doors.hall K.Outlet.outbox K.Store.shelf K.Clock.dial jobs) served.0.pass
        (jobs_view K.Doors.hall K.Outlet.outbox K.Store.shelf K.Clock.dial served.0.jobs)
        served.1) }
    ensures unused { IfErr result (Unused K.Clock.dial jobs) }
{
    let start = jobs.tick.clock.now();
    match make(alloc, config, start) {
        Ok((server, pass)) => match serve_all::<R, K>(rt, alloc, &server, pass, jobs) {
            Ok((pass, jobs, end)) => Ok((TunnelLast { server, pass, jobs }, end)),
            Err(jobs) => Err(jobs),
        },
        Err(Want) => Err(jobs),
    }
}
