//! The run of all jobs over any service of the server.

ghost use Rattle.std.specs.Prelude.{◌≡◌, length, vec_capacity};
ghost use Rattle.std.specs.Thread.{IsSync};
ghost use Rattle.satip_base.specs.Output.{Output};
ghost use Rattle.satip_turn.specs.Shown.{Knows};
ghost use Rattle.satip_worker.specs.declared.room.Room.{Room};
ghost use Rattle.satip_jobs.specs.Crewed.{RunDid};
ghost use Rattle.satip_jobs.specs.Crews.{IsSpace};
ghost use Rattle.satip_serve.specs.declared.seat.PumpRoom.{PumpRoom};
ghost use Rattle.satip_desk.specs.Views.{worker_view, pump_view, tick_view};
ghost use Rattle.satip_serve.specs.Deeds.{WorkerDid, PumpDid, TickerDid};
ghost use Rattle.satip_desk.specs.Fresh.{FreshJobs};
ghost use Rattle.satip_serve.specs.Ran.{AreAtLimit, JobsRan};
ghost use Rattle.satip_serve.specs.Services.{Serves, NeverWants, SeatDid, IsFirst};
ghost use Rattle.satip_serve.specs.JobViews.{posts_view};

use crate::seat::{PumpRoom, pump_seat, tick_seat, work_seat};
use satip_base::Out;
use satip_desk::{PumpKit, TickKit, WorkerKit};
use satip_jobs::{Crew, Posts, Seat, ServeEnd, Space, run_jobs};
use satip_plain::{Answer, Event, Service};
use satip_worker::Room;
use satip_world::{Clock, Doors, MuxStore, Outlet, Pacer};
use std::sync::Wait;
use std::thread::Threads;

/// Runs all jobs in parallel: workers, pumps in the order of front ends, and the ticker. Splits off
/// a caller from `root`, caller 0, for each job, with its gear. After the last worker it joins the
/// workers' callers, and caller 0 submits the one stop while pumps and ticker still run. Then it
/// joins theirs. Callers are joined, and kits and gears come back, in the order of jobs. Blocks.
pub fn run_services<
    R: Threads + Wait + Sync,
    X: Service + Crew<Asks = Event, Answers = Answer> + Send + Drop,
    D: Doors + Send + Drop,
    O: Outlet + Send + Drop,
    P: Pacer + Send + Drop,
    M: MuxStore + Send + Drop,
    C: Clock + Send + Drop,
>(
    rt: &R,
    root: X,
    posts: Posts<WorkerKit<D, O, P>, PumpKit<M, O, P>, TickKit<C, O, P>, X::Gear>,
    space: Space<X, WorkerKit<D, O, P>, Room, PumpKit<M, O, P>, PumpRoom, Out>,
) -> (
    X,
    Posts<WorkerKit<D, O, P>, PumpKit<M, O, P>, TickKit<C, O, P>, X::Gear>,
    ServeEnd,
)
    requires serves { Serves X.known X.may_want X.same X.cell X.pass X.Crew.legal X.is_stop }
    requires first { IsFirst (X.pass root) }
    requires workers { IsSpace posts.workers.items posts.worker_gears.items
        space.worker_rooms.items space.workers.items (vec_capacity space.workers) }
    requires pumps { IsSpace posts.pumps.items posts.pump_gears.items
        space.pump_rooms.items space.pumps.items (vec_capacity space.pumps) }
    requires worker_count { length posts.workers.items
        ≡ (X.cell root).setting.config.workers }
    requires pump_count { length posts.pumps.items
        ≡ length (X.cell root).setting.config.fronts }
    ensures cell { X.cell result.0 ≡ X.cell root }
    ensures knows { Knows (X.Crew.legal (X.cell root).setting) (X.pass result.0) }

    // the work of each job, and the callers and gears that came back
    ensures did { RunDid X.cell X.pass X.gear X.Crew.legal X.is_stop X.goes_on
        {L = Room} {M = PumpRoom} {N = Output}
        (SeatDid X.same X.known (worker_view D.hall O.outbox)
        (WorkerDid D.Conn.tells O.tells D.by_limit))
        (SeatDid X.same X.known (pump_view M.shelf O.outbox) (PumpDid O.tells))
        (SeatDid X.same X.known (tick_view C.dial O.outbox) (λ _. TickerDid O.tells))
        root posts result.0 result.1 result.2 }

    // the workers' keys and the pumps' recordings come back in order; it was a serve run if the
    // kits were fresh, but for one reading of the clock for the start
    ensures ran { JobsRan D.Conn.tells O.tells (FreshJobs (X.cell root).setting.start)
        (X.cell root).setting (posts_view D.hall O.outbox M.shelf C.dial posts)
        (X.pass result.0) (posts_view D.hall O.outbox M.shelf C.dial result.1) result.2 }
    ensures at_limit { AreAtLimit D.by_limit result.2
        (posts_view D.hall O.outbox M.shelf C.dial result.1).workers }
{
    run_jobs(
        rt,
        root,
        posts,
        space,
        &|seat: &mut Seat<X, WorkerKit<D, O, P>, Room>|
            requires { IsSync R.row × NeverWants X.may_want }
            ensures { SeatDid X.same X.known (worker_view D.hall O.outbox)
                (WorkerDid D.Conn.tells O.tells D.by_limit) seat.old seat.new }
        { work_seat(rt, seat) },
        &|seat: &mut Seat<X, PumpKit<M, O, P>, PumpRoom>|
            requires { IsSync R.row × NeverWants X.may_want }
            ensures { SeatDid X.same X.known (pump_view M.shelf O.outbox) (PumpDid O.tells)
                seat.old seat.new }
        { pump_seat(rt, seat) },
        &|seat: &mut Seat<X, TickKit<C, O, P>, Out>|
            requires { IsSync R.row × NeverWants X.may_want }
            ensures { SeatDid X.same X.known (tick_view C.dial O.outbox) (λ _. TickerDid O.tells)
                seat.old seat.new }
        { tick_seat(rt, seat) },
    )
}
