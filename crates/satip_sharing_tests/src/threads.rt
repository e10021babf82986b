//! A cell that threads share.
ghost use Rattle.std.specs.Prelude.{◌≡◌};
ghost use denote.Param.Send.{IsSync};
ghost use Rattle.satip_turn.specs.Shown.{IsOf};

use crate::checks::check;
use crate::counter::{add, counter_cell};
use satip_base::Served;
use satip_turn::{Pass, Tried, TurnCell};
use std::alloc::Global;
use std::process::Abort;
use std::sync::atomic::{AtomicBool, Ordering};
use std::sync::{Arc, Wait};
use std::thread;
use std::thread::{Threads, join};

const COUNT: u32 = 10000;

// Adds one so often.
fn add_ones<S: Served<Event = u64, Out = (), Answer = u64>, R: Wait + Sync>(
    rt: &R,
    cell: &TurnCell<S>,
    mut pass: Pass<S>,
) -> Pass<S>
    requires { IsOf pass cell.now }
    ensures { IsOf result cell.now }
{
    for _ in 0..COUNT {
        if cell.call(rt, &mut pass, &1, &mut ()).is_err() {
            break;
        }
    }
    pass
}

// Two threads add ones, each by a pass of its own.
fn add_by_two<S: Served<Event = u64, Out = (), Answer = u64>, R: Threads + Wait + Sync>(
    rt: &R,
    cell: &TurnCell<S>,
    first: &mut Pass<S>,
)
    requires { IsOf first.old cell.now }
    ensures { IsOf first.new cell.now }
{
    let one = cell.split(first);
    let two = cell.split(first);
    let (one, two) = join(
        rt,
        move || -> Pass<S>
            requires { IsOf one cell.now }
            ensures { IsOf result cell.entry.now }
        { add_ones(rt, cell, one) },
        move || -> Pass<S>
            requires { IsOf two cell.now }
            ensures { IsOf result cell.entry.now }
        { add_ones(rt, cell, two) },
    );
    cell.join(first, one);
    cell.join(first, two);
}

#[test]
fn two_threads_add_up(rt: HostRuntime) {
    let (cell, mut first) = counter_cell(&rt, rt.alloc());
    add_by_two(&rt, &cell, &mut first);
    check(&rt, "sum", add(&rt, &cell, &mut first, 0), 20000);
    check(&rt, "entries", first.place(), 20001);
}

// Waits until a flag is set.
fn wait_for(flag: &AtomicBool) {
    for _ in 0..u64::MAX {
        if flag.load(Ordering::SeqCst) {
            break;
        }
        thread::yield_now();
    }
}

/// Says that a thread is inside a gate, and waits until the gate is open.
pub(crate) fn pass_gate(inside: &AtomicBool, open: &AtomicBool) {
    inside.store(true, Ordering::SeqCst);
    wait_for(open);
}

// It answers once its gate is open.
#[derive(Drop)]
struct Gate {
    inside: Arc<AtomicBool, Global>,
    open: Arc<AtomicBool, Global>,
}

impl Served for Gate {
    type Event = ();

    type Out = ();

    type Answer = ();

    type Setting = ();

    ghost setting = { λ _. tt };

    ghost legal = { λ _ _. Unit {0} };

    ghost stands_for = { λ _ _. Unit {0} };

    ghost is_legal = { λ _ _ _. tt };

    fn serve(&mut self, _event: &(), _out: &mut ()) {
        pass_gate(&self.inside, &self.open);
    }
}

/// Tries while another thread is served, opens its gate, and tries until one try is done. Returns
/// whether the first try found the turn taken, and each thread has an entry.
pub(crate) fn try_beside<S: Served>(
    cell: &TurnCell<S>,
    mut pass: Pass<S>,
    event: &S::Event,
    out: &mut S::Out,
    inside: &AtomicBool,
    open: &AtomicBool,
) -> bool
    requires { IsOf pass cell.now }
{
    wait_for(inside);
    let busy = matches!(cell.try_call(&mut pass, event, out), Tried::Busy);
    open.store(true, Ordering::SeqCst);
    for _ in 0..u64::MAX {
        if let Tried::Done(_) = cell.try_call(&mut pass, event, out) {
            break;
        }
        thread::yield_now();
    }
    busy && pass.place() == 2
}

// Calls in one thread, and tries in another. Returns whether the call was made, and how the tries
// went.
fn call_beside_try<S: Served<Event = (), Out = (), Answer = ()>, R: Threads + Wait + Sync>(
    rt: &R,
    cell: &TurnCell<S>,
    mut first: Pass<S>,
    inside: &AtomicBool,
    open: &AtomicBool,
) -> [bool; 2]
    requires { IsOf first cell.now }
{
    let second = cell.split(&mut first);
    let (called, busy) = join(
        rt,
        move || -> bool
            requires { IsOf first cell.now }
        { cell.call(rt, &mut first, &(), &mut ()).is_ok() },
        move || -> bool
            requires { IsOf second cell.now }
        { try_beside(cell, second, &(), &mut (), inside, open) },
    );
    [called, busy]
}

fn flag(rt: &impl Abort, alloc: Global) -> Arc<AtomicBool, Global> {
    Arc::new(alloc, AtomicBool::new(false)).expect(rt, "out of memory")
}

// Creates a cell of a gate with these flags, and the pass of caller 0.
fn gate_cell(
    rt: &impl Abort,
    alloc: Global,
    inside: &Arc<AtomicBool, Global>,
    open: &Arc<AtomicBool, Global>,
) -> (TurnCell<Gate>, Pass<Gate>)
    ensures of { IsOf result.1 result.0 }
{
    let gate = Gate {
        inside: Arc::try_clone(inside).expect(rt, "another owner"),
        open: Arc::try_clone(open).expect(rt, "another owner"),
    };
    let Ok(made) = TurnCell::make(alloc, gate) else {
        panic!(rt; "out of memory");
    };
    made
}

#[test]
fn a_try_beside_a_call_is_busy(rt: HostRuntime) {
    let inside = flag(&rt, rt.alloc());
    let open = flag(&rt, rt.alloc());
    let (cell, first) = gate_cell(&rt, rt.alloc(), &inside, &open);
    let tried = call_beside_try(&rt, &cell, first, &inside, &open);
    check(&rt, "called, busy", tried, [true, true]);
}
