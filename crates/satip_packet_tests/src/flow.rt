//! Which subscriber gets which packet.
mod plain;

ghost use Rattle.std.specs.Prelude.{◌≡◌, ◌<◌};
ghost use Rattle.satip_flow.specs.Subscriptions.{IsFrontOrNone};

use crate::checks::check;
use crate::filled::filled;
use plain::Plain;
use satip_base::{Address, Out};
use satip_fixtures::draws::{FIRST_DRAW, next_draw};
use satip_flow::{Flow, Place};
use satip_pids::PidSet;
use satip_ts::Packet;
use std::alloc::Global;
use std::process::Abort;

const FIRST: Address = Address { ip: 1, port: 1400 };

const SECOND: Address = Address { ip: 2, port: 1500 };

fn place_of(slot: u16, stream: u16, count: u32) -> Place
    ensures slot { result.slot ≡ slot }
{
    Place {
        slot,
        stream,
        count,
    }
}

/// A set of PID 16.
fn sixteen() -> PidSet {
    let mut pids = PidSet::new();
    let _ = pids.set(&[16]);
    pids
}

/// Two RTP sessions that select all PIDs of front end 1, the later stream's first, and one without
/// a front end.
fn three_sessions(rt: &impl Abort, alloc: Global) -> Flow {
    let mut flow = Flow::make(alloc).expect(rt, "out of memory");
    let mut all = PidSet::new();
    all.set_all();
    flow.add_rtp(place_of(5, 2, 1), Some(1), &all, SECOND, 7, 0);
    flow.add_rtp(place_of(0, 1, 2), Some(1), &all, FIRST, 8, 65535);
    flow.add_rtp(place_of(9, 3, 3), None, &all, FIRST, 9, 0);
    flow
}

/// An RTP session of PID 16 at front end 1.
fn one_session(rt: &impl Abort, alloc: Global) -> Flow {
    let mut flow = Flow::make(alloc).expect(rt, "out of memory");
    flow.add_rtp(place_of(0, 1, 1), Some(1), &sixteen(), FIRST, 7, 9);
    flow
}

/// A session over HTTP of PID 16 at front end 1.
fn one_queue(rt: &impl Abort, alloc: Global) -> Flow {
    let mut flow = Flow::make(alloc).expect(rt, "out of memory");
    flow.add_http(place_of(3, 1, 1), Some(1), &sixteen());
    flow
}

/// What a call answers, or what stands in the output behind it.
#[derive(Clone, Copy)]
enum Step {
    /// So many packets of a PID; the marks of the last one.
    Give(u16, u16, u64),
    /// Stream 1 moves to front end 2.
    Move,
    Address(u16, Address, bool),
    Flush(u16, u64, bool),
    End(u16, bool),
    /// How many bytes are pulled; they are in the reply.
    Pull(u16, Option<usize>),
    /// The reply begins with the packet of a PID.
    Begins(u16),
    /// How many datagrams there are.
    Datagrams(usize),
    /// Where a datagram goes.
    Goes(usize, Address),
    /// How many bytes a datagram has.
    Length(usize, usize),
    /// The next number of a slot, its datagrams and octets.
    State(u16, Option<(u16, u32, u32)>),
}

/// Gives a packet of front 1 this many times. Returns the marks of the last time.
fn give(flow: &mut Flow, pid: u16, times: u16, out: &mut Out) -> Option<u64> {
    let packet = filled(pid)?;
    let mut overrun = 0;
    for _given in 0..times {
        out.clear();
        overrun = flow.packet(1, &packet, 1000, out);
    }
    Some(overrun)
}

fn flush(flow: &mut Flow, slot: u16, clock: u64, out: &mut Out) -> bool {
    out.clear();
    flow.flush(slot, clock, out)
}

/// Whether so much is pulled, and the reply has as many bytes.
fn pulls(flow: &mut Flow, slot: u16, bytes: Option<usize>, out: &mut Out) -> bool {
    out.clear();
    flow.pull(slot, out) == bytes && out.reply().len() == bytes.unwrap_or(0)
}

fn begins(out: &Out, pid: u16) -> bool {
    match filled(pid) {
        Some(packet) => out.reply().starts_with(packet.bytes()),
        None => false,
    }
}

fn goes(out: &Out, place: usize, wanted: Address) -> bool {
    match out.datagram(place) {
        Some((to, _)) => to == wanted,
        None => false,
    }
}

fn has_length(out: &Out, place: usize, length: usize) -> bool {
    match out.datagram(place) {
        Some((_, bytes)) => bytes.len() == length,
        None => false,
    }
}

fn state(flow: &Flow, slot: u16) -> Option<(u16, u32, u32)> {
    flow.state(slot)
        .map(|state| (state.next, state.datagrams, state.octets))
}

/// Whether a flow answers so.
fn is_answered(flow: &mut Flow, out: &mut Out, step: Step) -> bool {
    match step {
        Step::Give(pid, times, marks) => give(flow, pid, times, out) == Some(marks),
        Step::Move => {
            flow.change(1, Some(2), &sixteen());
            true
        }
        Step::Address(slot, to, there) => flow.address(slot, to) == there,
        Step::Flush(slot, clock, held) => flush(flow, slot, clock, out) == held,
        Step::End(slot, there) => flow.end(slot) == there,
        Step::Pull(slot, bytes) => pulls(flow, slot, bytes, out),
        Step::Begins(pid) => begins(out, pid),
        Step::Datagrams(count) => out.count() == count,
        Step::Goes(place, to) => goes(out, place, to),
        Step::Length(place, length) => has_length(out, place, length),
        Step::State(slot, wanted) => state(flow, slot) == wanted,
    }
}

/// Takes all steps, and asserts that each is answered so.
fn check_steps(rt: &impl Abort, alloc: Global, flow: &mut Flow, name: &str, steps: &[Step]) {
    let mut out = Out::make(alloc).expect(rt, "out of memory");
    for (place, step) in steps.iter().enumerate() {
        let answered = is_answered(flow, &mut out, *step);
        check(rt, name, (place, answered), (place, true));
    }
}

const IN_ORDER: &[Step] = &[
    Step::Give(16, 7, 0),
    Step::Datagrams(2),
    Step::Goes(0, FIRST),
    Step::Goes(1, SECOND),
    Step::State(0, Some((0, 1, 1316))),
    Step::State(5, Some((1, 1, 1316))),
    Step::State(9, Some((0, 0, 0))),
    Step::State(1, None),
];

#[test]
fn streams_and_their_sessions_get_packets_in_order(rt: HostRuntime) {
    let mut flow = three_sessions(&rt, rt.alloc());
    check_steps(&rt, rt.alloc(), &mut flow, "three sessions", IN_ORDER);
}

const HELD: &[Step] = &[
    Step::Give(16, 6, 0),
    Step::Give(17, 6, 0),
    Step::Move,
    Step::Give(16, 6, 0),
    Step::Address(0, SECOND, true),
    Step::Flush(0, 1040, true),
    Step::Goes(0, SECOND),
    Step::Length(0, 1140),
    Step::Flush(0, 1080, false),
    Step::State(0, Some((10, 1, 1128))),
    Step::End(0, true),
    Step::End(0, false),
    Step::Address(0, FIRST, false),
];

#[test]
fn held_packets_stay_over_a_change_and_leave_at_a_flush(rt: HostRuntime) {
    let mut flow = one_session(&rt, rt.alloc());
    check_steps(&rt, rt.alloc(), &mut flow, "one session", HELD);
}

const QUEUED: &[Step] = &[
    Step::Give(16, 4096, 0),
    Step::Give(17, 1, 0),
    Step::Give(16, 1, 8),
    Step::Pull(3, Some(12032)),
    Step::Begins(16),
    Step::Give(16, 64, 0),
    Step::Give(16, 1, 8),
    Step::End(3, true),
    Step::Pull(3, None),
];

#[test]
fn a_full_queue_takes_no_more(rt: HostRuntime) {
    let mut flow = one_queue(&rt, rt.alloc());
    check_steps(&rt, rt.alloc(), &mut flow, "one queue", QUEUED);
}

/// The flow, the one that it is compared with, and what each writes.
#[derive(Drop)]
struct Both {
    flow: Flow,
    plain: Plain,
    out: Out,
    other: Out,
}

impl Both {
    /// Both without a session.
    fn make(rt: &impl Abort, alloc: Global) -> Both {
        Both {
            flow: Flow::make(alloc).expect(rt, "out of memory"),
            plain: Plain::new(alloc),
            out: Out::make(alloc).expect(rt, "out of memory"),
            other: Out::make(alloc).expect(rt, "out of memory"),
        }
    }

    /// Whether both wrote the same.
    fn wrote_same(&self) -> bool {
        if self.out.count() != self.other.count() || self.out.reply() != self.other.reply() {
            return false;
        }
        for place in 0..self.out.count() {
            let same = match (self.out.datagram(place), self.other.datagram(place)) {
                (Some((to, bytes)), Some((other, others))) => to == other && bytes == others,
                _ => false,
            };
            if !same {
                return false;
            }
        }
        true
    }

    /// A session begins in the place of the one before it.
    fn add(&mut self, alloc: Global, place: Place, front: Option<u16>, draw: u32) -> bool
        requires slot { place.slot < 64 }
        requires front { IsFrontOrNone front }
    {
        let pids = some_pids(draw);
        if self.flow.end(place.slot) != self.plain.end(place.slot) {
            return false;
        }
        if draw % 4 == 0 {
            self.flow.add_http(place, front, &pids);
            return self.plain.add_http(alloc, place, front, &pids).is_ok();
        }
        self.flow.add_rtp(place, front, &pids, FIRST, 7, 65530);
        self.plain.add_rtp(place, front, &pids, FIRST).is_ok()
    }

    /// A packet comes.
    fn packet(&mut self, front: u16, packet: &Packet, clock: u64) -> bool {
        self.out.clear();
        self.other.clear();
        let overrun = self.flow.packet(front, packet, clock, &mut self.out);
        self.plain.packet(front, packet, clock, &mut self.other) == Ok(overrun)
    }

    /// Something is asked of a session, or it ends.
    fn ask(&mut self, kind: u32, slot: u16, clock: u64) -> bool {
        self.out.clear();
        self.other.clear();
        match kind {
            0 => self.flow.end(slot) == self.plain.end(slot),
            1 => self.flow.address(slot, SECOND) == self.plain.address(slot, SECOND),
            2 => {
                self.flow.flush(slot, clock, &mut self.out)
                    == self.plain.flush(slot, clock, &mut self.other)
            }
            3 => self.flow.pull(slot, &mut self.out) == self.plain.pull(slot, &mut self.other),
            _ => self.flow.state(slot) == self.plain.state(slot),
        }
    }
}

/// All PIDs, or a few of those that packets have.
fn some_pids(draw: u32) -> PidSet {
    let mut pids = PidSet::new();
    if draw % 7 == 0 {
        pids.set_all();
        return pids;
    }
    for shift in 0..4u32 {
        let _ = pids.add(&[some_pid(draw >> (4 * shift))]);
    }
    pids
}

/// One of ten PIDs, of which some share 64.
fn some_pid(draw: u32) -> u16
    ensures below { result < 8192 }
{
    (draw % 10 * 29) as u16
}

/// One of four front ends for most numbers, else none.
fn some_front(draw: u32) -> Option<u16>
    ensures front { IsFrontOrNone result }
{
    if draw % 5 == 0 {
        return None;
    }
    Some((draw % 2 + 1 + draw / 2 % 2 * 14) as u16)
}

impl Both {
    /// A stream moves.
    fn change(&mut self, stream: u16, drawn: u32) {
        let pids = some_pids(drawn);
        self.flow.change(stream, some_front(drawn), &pids);
        self.plain.change(stream, some_front(drawn), &pids);
    }

    /// Makes one call of each, as a number says. Whether both answer alike.
    fn call(&mut self, alloc: Global, draw: u32, made: u32) -> bool {
        let kind = draw >> 28;
        let drawn = (draw >> 8) % 65536;
        let slot = (drawn % 66) as u16;
        match kind {
            0..=4 => self.ask(kind, slot, made as u64),
            5 => {
                self.change(slot / 2, drawn);
                true
            }
            6 | 7 => {
                let place = place_of(slot % 64, (drawn % 23) as u16, made);
                self.add(alloc, place, some_front(drawn), drawn)
            }
            _ => {
                let front = drawn / 16 % 3 + drawn / 64 % 2 * 15;
                match filled(some_pid(drawn)) {
                    Some(packet) => self.packet(front as u16, &packet, made as u64),
                    None => false,
                }
            }
        }
    }
}

#[test]
fn ten_thousand_calls_are_as_on_a_plain_list(rt: HostRuntime) {
    let mut both = Both::make(&rt, rt.alloc());
    let mut draw = FIRST_DRAW;
    for made in 0..10000u32 {
        draw = next_draw(draw);
        let same = both.call(rt.alloc(), draw, made) && both.wrote_same();
        check(&rt, "a call", (made, same), (made, true));
    }
    for slot in 0..64 {
        check(&rt, "an end", (slot, both.ask(0, slot, 0)), (slot, true));
    }
    check(&rt, "unmarked", both.flow.is_unmarked(), true);
}
