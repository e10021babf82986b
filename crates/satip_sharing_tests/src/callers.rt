//! A shared server with two front ends and one multiplex.
ghost use Rattle.std.specs.Prelude.{◌≡◌, ◌+◌, ◌<◌, [], length};
ghost use Rattle.satip_turn.specs.Shown.{IsOf, Knows, first_pass, met_once, newborn};
ghost use Rattle.satip_plain.specs.Histories.{Legal};
ghost use Rattle.satip_shared.specs.Calling.{known_by, SameCaller};

mod gate;
mod threads;

use crate::checks::check;
use satip_base::Out;
use satip_fixtures::{FIRST_MUX, config_with};
use satip_plain::{Answer, Beat, Event, Service, Work};
use satip_shared::{Caller, SharedPass, SharedServer, make};
use std::alloc::Global;
use std::process::Abort;
use std::sync::Wait;

/// Creates a server at 1000 milliseconds, and the pass of caller 0.
pub(crate) fn shared(rt: &impl Abort, alloc: Global) -> (SharedServer, SharedPass)
    ensures of { IsOf result.1 result.0 }
    ensures knows { Knows (Legal result.0.setting) result.1 }
{
    let Ok(config) = config_with(alloc, 2, &[FIRST_MUX]) else {
        panic!(rt; "out of memory");
    };
    let Ok(made) = make(alloc, config, 1000) else {
        panic!(rt; "out of memory");
    };
    made
}

pub(crate) fn output(rt: &impl Abort, alloc: Global) -> Out {
    Out::make(alloc).expect(rt, "out of memory")
}

// The first pass knows nothing; a caller that met a taken turn is the same, one of another number
// isn't.
fn caller_rows(server: &SharedServer, number: u64)
    ensures nothing { known_by (first_pass server.now)
        ≡ record { seen = []; own = []; length = 0 } }
    ensures same { SameCaller server.now (first_pass server.now) server.now
        (met_once (first_pass server.now)) }
    ensures other { 0 < number → ¬ (SameCaller server.now (first_pass server.now) server.now
        (newborn (first_pass server.now) number)) }
{
    let _server = server;
    let _ = number;
}

// Makes one call of a service. Returns its answer.
fn answer_of<S: Service>(rt: &impl Abort, service: &mut S, event: &Event, out: &mut Out) -> Answer
    ensures own { length (S.known service.new).own ≡ length (S.known service.old).own + 1 }
{
    let Ok(answer) = service.call(event, out) else {
        panic!(rt; "no entry");
    };
    answer
}

// Stops the server as one caller.
fn stop<R: Wait + Sync + Abort>(
    rt: &R,
    server: &SharedServer,
    pass: SharedPass,
    out: &mut Out,
) -> Answer
    requires of { IsOf pass server.now }
    requires knows { Knows (Legal server.now.setting) pass }
{
    let mut caller = Caller { rt, server, pass };
    answer_of(rt, &mut caller, &Event::Stop, out)
}

// Asks as the first caller, stops the server as a second one, and asks again. Returns the first
// caller's pass and all answers.
fn ask_stop_ask<R: Wait + Sync + Abort>(
    rt: &R,
    server: &SharedServer,
    first: SharedPass,
    out: &mut Out,
) -> (SharedPass, [Answer; 3])
    requires of { IsOf first server.now }
    requires knows { Knows (Legal server.now.setting) first }
    ensures own { length result.0.own ≡ length first.own + 2 }
{
    let ask = Event::Ask { front: 1 };
    let mut pass = first;
    let second = server.split(&mut pass);
    let mut caller = Caller { rt, server, pass };
    let before = answer_of(rt, &mut caller, &ask, out);
    let stopping = stop(rt, server, second, out);
    let after = answer_of(rt, &mut caller, &ask, out);
    (caller.pass, [before, stopping, after])
}

const ANSWERS: [Answer; 3] = [
    Answer::Work(Work::Nothing),
    Answer::Beat(Beat::Stopping),
    Answer::Work(Work::Stopping),
];

#[test]
fn a_caller_sees_anothers_entry_between_its_own(rt: HostRuntime) {
    let mut out = output(&rt, rt.alloc());
    let (server, first) = shared(&rt, rt.alloc());
    let (pass, answers) = ask_stop_ask(&rt, &server, first, &mut out);
    check(&rt, "answers", answers, ANSWERS);
    check(&rt, "entries", pass.place(), 3);
}
