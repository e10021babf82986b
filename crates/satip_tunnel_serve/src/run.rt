//! The run of all jobs of a tunnel.

ghost use Rattle.std.specs.Prelude.{◌≡◌, length, vec_capacity};
ghost use Rattle.std.specs.Thread.{IsSync};
ghost use Rattle.satip_turn.specs.Shown.{Knows};
ghost use Rattle.satip_jobs.specs.Crews.{IsSpace};
ghost use Rattle.satip_desk.specs.Fresh.{FreshJobs};
ghost use Rattle.satip_desk.specs.Views.{worker_view};
ghost use Rattle.satip_serve.specs.JobViews.{posts_view};
ghost use Rattle.satip_serve.specs.Services.{IsFirst, NeverWants};
ghost use Rattle.satip_tunnel_serve.specs.Deeds.{doors_tell, worker_deed};
ghost use Rattle.satip_tunnel_serve.specs.Ran.{TunnelJobsRan};
ghost use Rattle.satip_tunnel_serve.specs.Services.{PumpedAtSeat, ServesInTunnel, TickedAtSeat, WorksSo};

use crate::seat::{pump_at_seat, tick_at_seat};
use satip_base::Out;
use satip_desk::{PumpKit, TickKit, WorkerKit};
use satip_interleave::{TunnelAnswer, TunnelEvent};
use satip_jobs::{Crew, Posts, Seat, ServeEnd, Space, run_jobs};
use satip_plain::Service;
use satip_serve::PumpRoom;
use satip_world::{Clock, Doors, MuxStore, Outlet, Pacer};
use std::sync::Wait;
use std::thread::Threads;

/// The kits of a tunnel's jobs, and the gears of their callers.
pub type TunnelPosts<D, O, P, M, C, G> = Posts<
    WorkerKit<D, O, P>,
    PumpKit<M, O, P>,
    TickKit<C, O, P>,
    G,
>;

/// The memory that a tunnel's jobs take.
pub type TunnelSpace<X, D, O, L, P, M> = Space<
    X,
    WorkerKit<D, O, P>,
    L,
    PumpKit<M, O, P>,
    PumpRoom,
    Out,
>;

/// Runs all jobs of a tunnel in parallel: workers, which do `work`, pumps in the order of front
/// ends, and the ticker. Splits off a caller from `root`, caller 0, for each job, with its gear.
/// After the last worker it joins the workers' callers, and caller 0 submits the one stop while
/// pumps and ticker still run. Then it joins theirs. Callers are joined, and kits and gears come
/// back, in the order of jobs. Pumps and the ticker use no outlet. Blocks.
pub fn run_in_tunnel<
    R: Threads + Wait + Sync,
    X: Service + Crew<Asks = TunnelEvent, Answers = TunnelAnswer> + Send + Drop,
    D: Doors + Send + Drop,
    O: Outlet + Send + Drop,
    L: Send + Drop,
    P: Pacer + Send + Drop,
    M: MuxStore + Send + Drop,
    C: Clock + Send + Drop,
    F: Fn(&mut Seat<X, WorkerKit<D, O, P>, L>) + Sync,
>(
    rt: &R,
    root: X,
    posts: TunnelPosts<D, O, P, M, C, X::Gear>,
    space: TunnelSpace<X, D, O, L, P, M>,
    work: &F,
) -> (X, TunnelPosts<D, O, P, M, C, X::Gear>, ServeEnd)
    requires serves { ServesInTunnel X.known X.may_want X.same X.cell X.pass X.Crew.legal
        X.is_stop }
    requires work { WorksSo X.cell X.pass
        (worker_deed (doors_tell D.Conn.tells D.by_limit) (worker_view D.hall O.outbox))
        F.Fn work.now }
    requires first { IsFirst (X.pass root) }
    requires workers { IsSpace posts.workers.items posts.worker_gears.items
        space.worker_rooms.items space.workers.items (vec_capacity space.workers) }
    requires pumps { IsSpace posts.pumps.items posts.pump_gears.items
        space.pump_rooms.items space.pumps.items (vec_capacity space.pumps) }
    requires worker_count { length posts.workers.items
        ≡ (X.cell root).setting.config.workers }
    requires pump_count { length posts.pumps.items
        ≡ length (X.cell root).setting.config.fronts }
    ensures cell { X.cell result.0 ≡ X.cell root }
    ensures knows { Knows (X.Crew.legal (X.cell root).setting) (X.pass result.0) }

    // the workers' keys, the pumps' recordings and what the outlets show come back in order; it was
    // a run of the tunnel if the kits were fresh, but for one reading of the clock for the start
    ensures ran { TunnelJobsRan (doors_tell D.Conn.tells D.by_limit)
        (FreshJobs (X.cell root).setting.start) (X.cell root).setting
        (posts_view D.hall O.outbox M.shelf C.dial posts) (X.pass result.0)
        (posts_view D.hall O.outbox M.shelf C.dial result.1) result.2 }
{
    run_jobs(
        rt,
        root,
        posts,
        space,
        work,
        &|seat: &mut Seat<X, PumpKit<M, O, P>, PumpRoom>|
            requires { IsSync R.row × NeverWants X.may_want }
            ensures { PumpedAtSeat X.same X.known M.shelf O.outbox seat.old seat.new }
        { pump_at_seat(rt, seat) },
        &|seat: &mut Seat<X, TickKit<C, O, P>, Out>|
            requires { IsSync R.row × NeverWants X.may_want }
            ensures { TickedAtSeat X.same X.known C.dial O.outbox seat.old seat.new }
        { tick_at_seat(rt, seat) },
    )
}
