//! The parallel run of all jobs.

ghost use Rattle.std.specs.Prelude.{◌≡◌, vec_capacity};
ghost use Rattle.std.specs.Thread.{IsSync};
ghost use Rattle.satip_turn.specs.Shown.{Knows};
ghost use Rattle.satip_jobs.specs.Pairs.{Both};
ghost use Rattle.satip_jobs.specs.Working.{TakesAny, Worked};
ghost use Rattle.satip_jobs.specs.Crews.{IsReady, IsSpace};
ghost use Rattle.satip_jobs.specs.Works.{IsWork};
ghost use Rattle.satip_jobs.specs.Crewed.{FrontDid, RunDid};

use crate::callers::{join_all, join_one, seat_all, seat_one};
use crate::crew::Crew;
use crate::each::{run_beside, run_each};
use crate::end::ServeEnd;
use crate::posts::{Posts, Space};
use crate::seat::Seat;
use satip_base::Out;
use std::thread::Threads;

/// The workers, and what is needed after all of them have ended.
#[derive(Drop)]
pub(crate) struct Front<X, W, L, G> {
    pub root: X,
    pub workers: Vec<Seat<X, W, L>>,
    pub kits: Vec<W>,
    pub gears: Vec<G>,
    pub out: Out,
    pub end: ServeEnd,
}

/// The pumps and the ticker.
#[derive(Drop)]
pub(crate) struct Back<X, P, M, T, N> {
    pub pumps: Vec<Seat<X, P, M>>,
    pub ticker: Seat<X, T, N>,
}

// Does the work on all jobs of a list.
fn run_list<R: Threads + Sync, J: Send, F: Fn(&mut J) + Sync>(rt: &R, jobs: &mut Vec<J>, work: &F)
    requires takes { TakesAny F.Fn work.now }
    ensures worked { Both (Worked F.Fn work.now) jobs.old.items jobs.new.items }
{
    run_each(rt, jobs.as_mut_slice(), work);
}

// Does the work on all jobs at their seats.
fn run_seats<
    R: Threads + Sync,
    X: Crew + Send + Drop,
    K: Send + Drop,
    M: Send + Drop,
    F: Fn(&mut Seat<X, K, M>) + Sync,
>(rt: &R, seats: &mut Vec<Seat<X, K, M>>, work: &F)
    requires work { IsWork X.cell X.pass F.Fn work.now }
    ensures worked { Both (Worked F.Fn work.now) seats.old.items seats.new.items }
{
    run_list(rt, seats, work);
}

// Runs the workers. After all have ended, joins their passes and executes the stop.
fn run_front<
    R: Threads + Sync,
    X: Crew + Send + Drop,
    W: Send + Drop,
    L: Send + Drop,
    F: Fn(&mut Seat<X, W, L>) + Sync,
>(rt: &R, front: &mut Front<X, W, L, X::Gear>, work: &F)
    requires work { IsWork X.cell X.pass F.Fn work.now }
    requires ready { IsReady X.cell X.pass X.legal front.old }
    ensures did { FrontDid X.cell X.pass X.gear X.legal X.is_stop X.goes_on
        (Worked F.Fn work.now) front.old.root front.old.workers.items front.new.root
        front.new.kits.items front.new.gears.items front.new.end }
{
    run_seats(rt, &mut front.workers, work);
    let worst = join_all(
        &mut front.root,
        &mut front.workers,
        &mut front.kits,
        &mut front.gears,
    );
    let stopped = front.root.stop(&mut front.out);
    front.end = worst.and(stopped);
}

// Runs the pumps and the ticker in parallel.
fn run_back<
    R: Threads + Sync,
    X: Crew + Send + Drop,
    P: Send + Drop,
    M: Send + Drop,
    T: Send + Drop,
    N: Send + Drop,
    G: Fn(&mut Seat<X, P, M>) + Sync,
    H: Fn(&mut Seat<X, T, N>) + Sync,
>(rt: &R, back: &mut Back<X, P, M, T, N>, pump: &G, tick: &H)
    requires pump { IsWork X.cell X.pass G.Fn pump.now }
    requires tick { IsWork X.cell X.pass H.Fn tick.now }
    ensures pumps { Both (Worked G.Fn pump.now) back.old.pumps.items back.new.pumps.items }
    ensures ticker { Worked H.Fn tick.now back.old.ticker back.new.ticker }
{
    run_beside(
        rt,
        &mut back.pumps,
        &|pumps: &mut Vec<Seat<X, P, M>>|
            requires { IsSync R.row × IsSync G.row × IsWork X.cell X.pass G.Fn pump.now }
            ensures { Both (Worked G.Fn pump.entry.now) pumps.old.items pumps.new.items }
        { run_seats(rt, pumps, pump) },
        &mut back.ticker,
        tick,
    );
}

// Runs the workers and the stop in parallel with the pumps and the ticker. The workers are the
// second work. If no thread can be started, that is done first; otherwise pumps and ticker would
// wait for the stop for ever.
fn run_both<
    R: Threads + Sync,
    X: Crew + Send + Drop,
    W: Send + Drop,
    L: Send + Drop,
    P: Send + Drop,
    M: Send + Drop,
    T: Send + Drop,
    N: Send + Drop,
    F: Fn(&mut Seat<X, W, L>) + Sync,
    G: Fn(&mut Seat<X, P, M>) + Sync,
    H: Fn(&mut Seat<X, T, N>) + Sync,
>(
    rt: &R,
    front: &mut Front<X, W, L, X::Gear>,
    back: &mut Back<X, P, M, T, N>,
    work: &F,
    pump: &G,
    tick: &H,
)
    requires work { IsWork X.cell X.pass F.Fn work.now }
    requires pump { IsWork X.cell X.pass G.Fn pump.now }
    requires tick { IsWork X.cell X.pass H.Fn tick.now }
    requires ready { IsReady X.cell X.pass X.legal front.old }
    ensures front { FrontDid X.cell X.pass X.gear X.legal X.is_stop X.goes_on
        (Worked F.Fn work.now) front.old.root front.old.workers.items front.new.root
        front.new.kits.items front.new.gears.items front.new.end }
    ensures pumps { Both (Worked G.Fn pump.now) back.old.pumps.items back.new.pumps.items }
    ensures ticker { Worked H.Fn tick.now back.old.ticker back.new.ticker }
{
    run_beside(
        rt,
        back,
        &|back: &mut Back<X, P, M, T, N>|
            requires { IsSync R.row × IsSync G.row × IsSync H.row
                × IsWork X.cell X.pass G.Fn pump.now × IsWork X.cell X.pass H.Fn tick.now }
            ensures { Both (Worked G.Fn pump.entry.now) back.old.pumps.items back.new.pumps.items
                × Worked H.Fn tick.entry.now back.old.ticker back.new.ticker }
        { run_back(rt, back, pump, tick) },
        front,
        &|front: &mut Front<X, W, L, X::Gear>|
            requires { IsSync R.row × IsSync F.row × IsWork X.cell X.pass F.Fn work.now
                × IsReady X.cell X.pass X.legal front.old }
            ensures { FrontDid X.cell X.pass X.gear X.legal X.is_stop X.goes_on
                (Worked F.Fn work.entry.now) front.old.root front.old.workers.items front.new.root
                front.new.kits.items front.new.gears.items front.new.end }
        { run_front(rt, front, work) },
    );
}

/// Runs workers, pumps and a ticker in parallel, each kind with one closure. Splits a caller with
/// the job's gear off from `root` for each job, in order. After the last worker has ended, joins
/// the workers' callers; `root` then executes the one stop, while pumps and ticker still run. After
/// these have ended, joins their callers too, in order. Kits and gears come back in their order.
pub fn run_jobs<
    R: Threads + Sync,
    X: Crew + Send + Drop,
    W: Send + Drop,
    L: Send + Drop,
    P: Send + Drop,
    M: Send + Drop,
    T: Send + Drop,
    N: Send + Drop,
    F: Fn(&mut Seat<X, W, L>) + Sync,
    G: Fn(&mut Seat<X, P, M>) + Sync,
    H: Fn(&mut Seat<X, T, N>) + Sync,
>(
    rt: &R,
    mut root: X,
    posts: Posts<W, P, T, X::Gear>,
    space: Space<X, W, L, P, M, N>,
    work: &F,
    pump: &G,
    tick: &H,
) -> (X, Posts<W, P, T, X::Gear>, ServeEnd)
    requires work { IsWork X.cell X.pass F.Fn work.now }
    requires pump { IsWork X.cell X.pass G.Fn pump.now }
    requires tick { IsWork X.cell X.pass H.Fn tick.now }
    requires workers { IsSpace posts.workers.items posts.worker_gears.items
        space.worker_rooms.items space.workers.items (vec_capacity space.workers) }
    requires pumps { IsSpace posts.pumps.items posts.pump_gears.items
        space.pump_rooms.items space.pumps.items (vec_capacity space.pumps) }
    ensures cell { X.cell result.0 ≡ X.cell root }
    ensures knows { Knows (X.legal (X.cell root).setting) (X.pass result.0) }
    ensures did { RunDid X.cell X.pass X.gear X.legal X.is_stop X.goes_on
        (Worked F.Fn work.now) (Worked G.Fn pump.now) (Worked H.Fn tick.now) root posts result.0
        result.1 result.2 }
{
    let Posts {
        mut workers,
        mut worker_gears,
        mut pumps,
        mut pump_gears,
        ticker,
        ticker_gear,
    } = posts;
    let Space {
        mut worker_rooms,
        workers: mut worker_seats,
        mut pump_rooms,
        pumps: mut pump_seats,
        ticker_room,
        stop_out,
    } = space;
    seat_all(
        &mut root,
        &mut workers,
        &mut worker_gears,
        &mut worker_rooms,
        &mut worker_seats,
    );
    seat_all(
        &mut root,
        &mut pumps,
        &mut pump_gears,
        &mut pump_rooms,
        &mut pump_seats,
    );
    let ticker_seat = seat_one(&mut root, ticker, ticker_gear, ticker_room, 1);
    let mut front = Front {
        root,
        workers: worker_seats,
        kits: workers,
        gears: worker_gears,
        out: stop_out,
        end: ServeEnd::Served,
    };
    let mut back = Back {
        pumps: pump_seats,
        ticker: ticker_seat,
    };
    run_both(rt, &mut front, &mut back, work, pump, tick);
    let Front {
        mut root,
        workers: _,
        kits: workers,
        gears: worker_gears,
        out: _,
        end,
    } = front;
    let Back {
        pumps: mut pump_seats,
        ticker: ticker_seat,
    } = back;
    let pumped = join_all(&mut root, &mut pump_seats, &mut pumps, &mut pump_gears);
    let (ticker, ticker_gear, ticked) = join_one(&mut root, ticker_seat);
    let posts = Posts {
        workers,
        worker_gears,
        pumps,
        pump_gears,
        ticker,
        ticker_gear,
    };
    (root, posts, end.and(pumped).and(ticked))
}
