//! Runs the journal of one caller on a server with one front end, and compares its answers.

ghost use Rattle.satip_plain.specs.Histories.{Legal};
ghost use Rattle.satip_turn.specs.Shown.{IsOf, Knows};

use crate::checks::check;
use crate::kits::MemoryJournal;
use crate::questions::Questions;
use satip_base::Out;
use satip_desk::JobJournal;
use satip_entry_writer::LineRoom;
use satip_fixtures::config_with;
use satip_journal_serve::{Caller, Journal, SharedPass, SharedServer, make};
use satip_memory::MemorySink;
use satip_plain::{Answer, Event, Service};
use std::alloc::Global;
use std::process::Abort;
use std::sync::Wait;

/// Bursts, each of a new lot of questions.
#[derive(Clone, Copy)]
pub(crate) struct Lots {
    /// The number of bursts.
    pub bursts: u32,
    /// The number of questions in a lot.
    pub questions: u32,
    /// The number of questions that a burst leaves in its lot.
    pub left: u32,
}

/// A step of a journal.
#[derive(Clone, Copy)]
pub(crate) enum Step {
    /// It asks for work of front end 1, and gets this answer.
    Ask(Answer),
    /// It stops the server, and gets this answer.
    Stop(Answer),
    /// It makes bursts of questions.
    Burst(Lots),
}

/// A run of the journal of one caller.
#[derive(Clone, Copy)]
pub(crate) struct Case {
    pub name: &'static str,
    /// The number of the job.
    pub job: u64,
    /// The numbers, from 1, of the puts that fail. They pass six bytes at most.
    pub failing: &'static [u64],
    pub steps: &'static [Step],
    /// The steps after another caller stops the server. None does if this list is empty.
    pub after: &'static [Step],
}

// Asserts that an event gets this answer.
fn check_call<S: Service>(
    rt: &impl Abort,
    service: &mut S,
    out: &mut Out,
    event: &Event,
    answer: Answer,
    name: &str,
) {
    check(rt, name, service.call(event, out), Ok(answer));
}

// Makes bursts, and asserts that each leaves its number of questions.
fn check_bursts<S: Service>(
    rt: &impl Abort,
    service: &mut S,
    out: &mut Out,
    lots: Lots,
    name: &str,
) {
    let mut room = S::room();
    for _ in 0..lots.bursts {
        let mut lot = Questions::new(lots.questions);
        check(rt, name, service.burst(&mut lot, &mut room, out), Ok(()));
        check(rt, name, lot.left(), lots.left);
    }
}

// Takes a step, and asserts its result.
fn take_step<S: Service>(rt: &impl Abort, service: &mut S, out: &mut Out, step: Step, name: &str) {
    match step {
        Step::Ask(answer) => {
            check_call(rt, service, out, &Event::Ask { front: 1 }, answer, name);
        }
        Step::Stop(answer) => check_call(rt, service, out, &Event::Stop, answer, name),
        Step::Burst(lots) => check_bursts(rt, service, out, lots, name),
    }
}

// Takes these steps, and asserts the result of each.
fn take_steps<S: Service>(
    rt: &impl Abort,
    service: &mut S,
    out: &mut Out,
    steps: &[Step],
    name: &str,
) {
    for step in steps {
        take_step(rt, service, out, *step, name);
    }
}

// Begins a case by a caller: creates its journal, and takes the first steps.
fn begin<'a, R: Wait + Sync + Abort>(
    rt: &'a R,
    alloc: Global,
    server: &'a SharedServer,
    pass: SharedPass,
    out: &mut Out,
    case: &Case,
) -> Journal<'a, R, MemoryJournal>
    requires of { IsOf pass server.now }
    requires knows { Knows (Legal server.now.setting) pass }
{
    let sink = MemorySink::make(alloc, case.failing, 6).expect(rt, "out of memory");
    let line = LineRoom::make(alloc).expect(rt, "out of memory");
    let mut journal = Journal::new(
        Caller { rt, server, pass },
        case.job,
        JobJournal::new(case.job, sink),
        line,
    );
    take_steps(rt, &mut journal, out, case.steps, case.name);
    journal
}

// Runs a case by a caller alone.
fn run_alone<'a, R: Wait + Sync + Abort>(
    rt: &'a R,
    alloc: Global,
    server: &'a SharedServer,
    pass: SharedPass,
    out: &mut Out,
    case: &Case,
) -> MemoryJournal
    requires of { IsOf pass server.now }
    requires knows { Knows (Legal server.now.setting) pass }
{
    let journal = begin(rt, alloc, server, pass, out, case);
    journal.sink
}

// Stops the server by a caller without a journal.
fn stop<R: Wait + Sync + Abort>(rt: &R, server: &SharedServer, pass: SharedPass, out: &mut Out)
    requires of { IsOf pass server.now }
    requires knows { Knows (Legal server.now.setting) pass }
{
    let mut caller = Caller { rt, server, pass };
    let answered = caller.call(&Event::Stop, out).is_ok();
    check(rt, "stop", answered, true);
}

// Runs a case by a caller that is split off from the first one, which stops the server.
fn run_beside<'a, R: Wait + Sync + Abort>(
    rt: &'a R,
    alloc: Global,
    server: &'a SharedServer,
    pass: SharedPass,
    out: &mut Out,
    case: &Case,
) -> MemoryJournal
    requires of { IsOf pass server.now }
    requires knows { Knows (Legal server.now.setting) pass }
{
    let mut first = pass;
    let pass = server.split(&mut first);
    let mut journal = begin(rt, alloc, server, pass, out, case);
    stop(rt, server, first, out);
    take_steps(rt, &mut journal, out, case.after, case.name);
    journal.sink
}

/// Runs a case on a server at 1000 milliseconds. Returns the journal.
pub(crate) fn run_case<R: Wait + Sync + Abort>(
    rt: &R,
    alloc: Global,
    case: &Case,
) -> MemoryJournal {
    let mut out = Out::make(alloc).expect(rt, "out of memory");
    let Ok(config) = config_with(alloc, 1, &[]) else {
        panic!(rt; "out of memory");
    };
    let Ok(made) = make(alloc, config, 1000) else {
        panic!(rt; "out of memory");
    };
    let (server, pass) = made;
    if case.after.is_empty() {
        run_alone(rt, alloc, &server, pass, &mut out, case)
    } else {
        run_beside(rt, alloc, &server, pass, &mut out, case)
    }
}
