//! Steps of a small tunnel, each with what comes of it.

use crate::checks::{check, given};
use crate::requests::asked;
use satip_base::{Out, Peer};
use satip_fixtures::texts::repeated;
use satip_fixtures::{DRAW, FIRST_MUX, SECOND_MUX, config_with, packet_bytes};
use satip_interleave::{Tunnel, TunnelAnswer, TunnelEvent};
use satip_plain::{Answer, Beat, Event, Replied};
use satip_ts::Packet;
use std::alloc::Global;
use std::process::Abort;

/// An event of a tunnel.
#[derive(Clone, Copy)]
pub enum Call {
    /// A connection enters.
    Enter,
    /// A lane is drained.
    Drain(u32),
    /// A lane is given up.
    Leave(u32),
    /// The connection of a lane asks with a text, which comes behind a report.
    Ask(u32, &'static [u8]),
    /// The clock ticks.
    Tick(u64),
}

/// A step of a tunnel.
#[derive(Clone, Copy)]
pub enum Step {
    /// It makes an event, and answers so.
    Make(Call, TunnelAnswer),
    /// So many packets of PID 16 come for the first tuning of the first front end.
    Give(usize),
    /// Its reply is a text, so many of these packets, and another text.
    Reply(&'static [u8], usize, &'static [u8]),
}

/// The answer to a request with status 200.
pub const ACCEPTED: TunnelAnswer = TunnelAnswer::Inner(Answer::Replied(Replied {
    status: 200,
    closing: false,
}));

/// The answer to a request with status 461.
pub const REFUSED: TunnelAnswer = TunnelAnswer::Inner(Answer::Replied(Replied {
    status: 461,
    closing: false,
}));

/// The answer to a tick.
pub const GOING: TunnelAnswer = TunnelAnswer::Inner(Answer::Beat(Beat::Going));

/// Returns a tunnel over a server with two front ends and two multiplexes, at 0 milliseconds.
pub fn tunnel(rt: &impl Abort, alloc: Global) -> Tunnel {
    let Ok(config) = config_with(alloc, 2, &[FIRST_MUX, SECOND_MUX]) else {
        rt.panic("out of memory");
    };
    Tunnel::make(alloc, config, 0).expect(rt, "out of memory")
}

// Returns the event of a request.
fn request_of(rt: &impl Abort, alloc: Global, lane: u32, text: &[u8]) -> Event {
    Event::Request {
        peer: Peer { ip: lane },
        draw: DRAW,
        request: asked(rt, alloc, text),
    }
}

fn event_of(rt: &impl Abort, alloc: Global, call: Call) -> TunnelEvent {
    match call {
        Call::Enter => TunnelEvent::Enter,
        Call::Drain(lane) => TunnelEvent::Drain { lane },
        Call::Leave(lane) => TunnelEvent::Leave { lane },
        Call::Ask(lane, text) => TunnelEvent::Inner(request_of(rt, alloc, lane, text)),
        Call::Tick(now) => TunnelEvent::Inner(Event::Tick { now }),
    }
}

// Makes an event, and asserts its answer.
fn check_call(
    rt: &impl Abort,
    tunnel: &mut Tunnel,
    out: &mut Out,
    name: &str,
    event: &TunnelEvent,
    answer: TunnelAnswer,
) {
    check(rt, name, tunnel.event(event, out), answer);
}

// Gives packets.
fn give(rt: &impl Abort, tunnel: &mut Tunnel, out: &mut Out, count: usize) {
    let event = TunnelEvent::Inner(Event::Packet {
        front: 1,
        tune: 1,
        packet: Packet::of(&packet_bytes(16)).expect(rt, "packet"),
    });
    for _ in 0..count {
        let _answer = tunnel.event(&event, out);
    }
}

// Asserts that a reply is these parts, each so often.
fn check_reply(rt: &impl Abort, alloc: Global, name: &str, reply: &[u8], parts: &[(&[u8], usize)]) {
    let wanted = given(rt, repeated(alloc, parts));
    check(rt, name, reply, wanted.as_slice());
}

/// Takes a step, and asserts what comes of it.
pub fn take(
    rt: &impl Abort,
    alloc: Global,
    tunnel: &mut Tunnel,
    out: &mut Out,
    name: &str,
    step: Step,
) {
    match step {
        Step::Make(call, answer) => {
            let event = event_of(rt, alloc, call);
            check_call(rt, tunnel, out, name, &event, answer);
        }
        Step::Give(count) => give(rt, tunnel, out, count),
        Step::Reply(text, count, behind) => {
            let packet = packet_bytes(16);
            let parts: &[(&[u8], usize)] = &[(text, 1), (packet.as_slice(), count), (behind, 1)];
            check_reply(rt, alloc, name, out.reply(), parts);
        }
    }
}

/// Takes steps, and asserts what comes of each.
pub fn take_each(
    rt: &impl Abort,
    alloc: Global,
    tunnel: &mut Tunnel,
    out: &mut Out,
    name: &str,
    steps: &[Step],
) {
    for step in steps {
        take(rt, alloc, tunnel, out, name, *step);
    }
}

// Takes steps, each list so often.
fn take_lists(
    rt: &impl Abort,
    alloc: Global,
    tunnel: &mut Tunnel,
    out: &mut Out,
    name: &str,
    lists: &[(u32, &[Step])],
) {
    for (times, steps) in lists {
        for _ in 0..*times {
            take_each(rt, alloc, tunnel, out, name, steps);
        }
    }
}

/// Takes steps of a new tunnel, each list so often, and asserts what comes of each.
pub fn run(rt: &impl Abort, alloc: Global, name: &str, lists: &[(u32, &[Step])]) {
    let mut out = Out::make(alloc).expect(rt, "out of memory");
    let mut tunnel = tunnel(rt, alloc);
    take_lists(rt, alloc, &mut tunnel, &mut out, name, lists);
}
