//! Frames that wait in lanes, worked out by hand.

ghost use Rattle.std.specs.Prelude.{◌≡◌, ℕ, ◌∷◌, [], take, replicate, Some};
ghost use Rattle.satip_interleave.specs.Calls.{Enter, Put, Drain, Leave, after, drain_after};
ghost use Rattle.satip_interleave.specs.Frames.{frame};
ghost use Rattle.satip_interleave.specs.Lanes.{entered_number, no_lanes};

use crate::checks::check;
use satip_base::{Address, Out};
use satip_interleave::{Drained, Lanes};
use std::alloc::Global;
use std::process::Abort;

// A datagram of 1140 bytes and a report of 152 bytes, with their heads.
fn frames_begin_with_channel_and_length()
    ensures packet { take 4 (frame 0 (replicate 1140 71)) ≡ 36 ∷ 0 ∷ 4 ∷ 116 ∷ [] }
    ensures report { take 4 (frame 1 (replicate 152 200)) ≡ 36 ∷ 1 ∷ 0 ∷ 152 ∷ [] }
{}

// A packet and a report leave by one drain, and nothing by the next.
fn drain_takes_packet_and_report()
    ensures number { entered_number no_lanes ≡ Some 1 }
    ensures first { drain_after (Enter ∷ Put (record { ip = 1; port = 1 }) (replicate 1140 71)
        ∷ Put (record { ip = 1; port = 2 }) (replicate 152 200) ∷ []) 1 ≡ Drained.Frames 1300 }
    ensures second { drain_after (Enter ∷ Put (record { ip = 1; port = 1 }) (replicate 1140 71)
        ∷ Put (record { ip = 1; port = 2 }) (replicate 152 200) ∷ Drain 1 ∷ []) 1 ≡ Drained.Empty }
    ensures gone { drain_after (Enter ∷ Leave 1 ∷ []) 1 ≡ Drained.Gone }
    ensures next { entered_number (after no_lanes (Enter ∷ Leave 1 ∷ [])) ≡ Some 2 }
{}

fn bytes(rt: &impl Abort, alloc: Global, count: usize, byte: u8) -> Vec<u8> {
    vec![in alloc; byte; count].expect(rt, "out of memory")
}

fn to(ip: u32, port: u16) -> Address {
    Address { ip, port }
}

// A call on the lanes and its answer, or what a reply is to have.
#[derive(Clone, Copy)]
enum Step {
    Enter(Option<u32>),
    /// To a lane and a port.
    Put(u32, u16, &'static [u8]),
    /// So many of one byte.
    PutMany(u32, u16, usize, u8),
    Drain(u32, Drained),
    Leave(u32, bool),
    /// How many bytes the reply of the last drain has.
    Length(usize),
    /// What stands in it from a place on.
    Has(usize, &'static [u8]),
    /// One byte in it from a place up to another.
    Fills(usize, usize, u8),
}

use Step::{Drain, Enter, Fills, Has, Leave, Length, Put, PutMany};

// A drain of a lane into an output that is cleared before.
fn drain(lanes: &mut Lanes, lane: u32, out: &mut Out) -> Drained {
    out.clear();
    lanes.drain(lane, out)
}

// What stands in a reply from a place on.
fn behind(reply: &[u8], place: usize) -> &[u8] {
    reply.split_at(place.min(reply.len())).1
}

// Whether a reply has one byte from a place up to another.
fn fills(reply: &[u8], from: usize, to: usize, byte: u8) -> bool {
    if reply.len() < to {
        return false;
    }
    for found in behind(reply.split_at(to).0, from) {
        if *found != byte {
            return false;
        }
    }
    true
}

// Takes a step. Tells whether it is answered so; a put isn't answered.
fn take(rt: &impl Abort, alloc: Global, lanes: &mut Lanes, out: &mut Out, step: Step) -> bool {
    match step {
        Enter(number) => lanes.enter() == number,
        Put(lane, port, text) => {
            lanes.put(to(lane, port), text);
            true
        }
        PutMany(lane, port, count, byte) => {
            let text = bytes(rt, alloc, count, byte);
            lanes.put(to(lane, port), &text);
            true
        }
        Drain(lane, drained) => drain(lanes, lane, out) == drained,
        Leave(lane, held) => lanes.leave(lane) == held,
        Length(length) => out.reply().len() == length,
        Has(place, text) => behind(out.reply(), place).starts_with(text),
        Fills(from, to, byte) => fills(out.reply(), from, to, byte),
    }
}

// Steps, each list so often.
type Row = (&'static str, &'static [(u32, &'static [Step])]);

const ROWS: &[Row] = &[
    (
        "a packet and a report leave in one reply",
        &[(
            1,
            &[
                Enter(Some(1)),
                PutMany(1, 1, 1140, 71),
                PutMany(1, 2, 152, 200),
                Drain(1, Drained::Frames(1300)),
                Length(1300),
                Has(0, &[0x24, 0x00, 0x04, 0x74, 71]),
                Has(1143, &[71, 0x24, 0x01, 0x00, 0x98, 200]),
                Drain(1, Drained::Empty),
                Length(0),
            ],
        )],
    ),
    (
        "a full lane breaks alone",
        &[
            (1, &[Enter(Some(1)), Enter(Some(2)), Put(2, 3, b"next")]),
            (16, &[PutMany(1, 1, 32764, 9)]),
            (1, &[Put(1, 1, b"")]),
            (
                8,
                &[
                    Drain(1, Drained::Frames(65536)),
                    Put(1, 1, b"behind a break"),
                ],
            ),
            (
                1,
                &[
                    Drain(1, Drained::Broken),
                    Drain(2, Drained::Frames(8)),
                    Length(8),
                    Has(0, b"$\x02\x00\x04next"),
                ],
            ),
        ],
    ),
    (
        "frames go around the end",
        &[
            (1, &[Enter(Some(1))]),
            (
                8,
                &[PutMany(1, 1, 60000, 9), Drain(1, Drained::Frames(60004))],
            ),
            (
                1,
                &[
                    PutMany(1, 256, 50000, 8),
                    Put(1, 1, b"last"),
                    Drain(1, Drained::Frames(50012)),
                    Length(50012),
                    Has(0, &[0x24, 0xff, 0xc3, 0x50, 8]),
                    Fills(4, 50004, 8),
                    Has(50004, b"$\x00\x00\x04last"),
                ],
            ),
        ],
    ),
    (
        "ports and lengths have bounds",
        &[(
            1,
            &[
                Enter(Some(1)),
                Put(1, 0, b"no channel"),
                Put(1, 257, b"no channel"),
                Put(1, 300, b"no channel"),
                Put(9, 1, b"no lane"),
                Drain(1, Drained::Empty),
                PutMany(1, 1, 65532, 7),
                Drain(1, Drained::Frames(65536)),
                PutMany(1, 1, 65536, 7),
                Drain(1, Drained::Broken),
            ],
        )],
    ),
];

// Takes steps. Returns the place of the first that isn't answered so.
fn take_each(
    rt: &impl Abort,
    alloc: Global,
    lanes: &mut Lanes,
    out: &mut Out,
    steps: &[Step],
) -> Option<usize> {
    for (place, step) in steps.iter().enumerate() {
        if !take(rt, alloc, lanes, out, *step) {
            return Some(place);
        }
    }
    None
}

// Takes all steps, each list so often, and asserts that each is answered so. A failure tells the
// list, and the place in it of the first step that isn't.
fn check_lists(
    rt: &impl Abort,
    alloc: Global,
    lanes: &mut Lanes,
    name: &str,
    lists: &[(u32, &[Step])],
) {
    let mut out = Out::make(alloc).expect(rt, "out of memory");
    for (list, (times, steps)) in lists.iter().enumerate() {
        for _ in 0..*times {
            let wrong = take_each(rt, alloc, lanes, &mut out, steps);
            check(rt, name, (list, wrong), (list, None));
        }
    }
}

fn check_rows(rt: &impl Abort, alloc: Global, rows: &[Row]) {
    for (name, lists) in rows {
        let mut lanes = Lanes::make(alloc).expect(rt, "out of memory");
        check_lists(rt, alloc, &mut lanes, name, lists);
    }
}

#[test]
fn lanes_answer_as_their_rows_say(rt: HostRuntime) {
    check_rows(&rt, rt.alloc(), ROWS);
}

const LEFT: &[(u32, &[Step])] = &[(
    1,
    &[
        Enter(None),
        Put(7, 1, b"late"),
        Leave(7, true),
        Leave(7, false),
        Drain(7, Drained::Gone),
        Enter(Some(65)),
        Put(7, 1, b"lost"),
        Drain(65, Drained::Empty),
        Enter(None),
    ],
)];

#[test]
fn numbers_go_on_where_lanes_are_left(rt: HostRuntime) {
    let mut lanes = Lanes::make(rt.alloc()).expect(&rt, "out of memory");
    for number in 1..65 {
        check(&rt, "a number", lanes.enter(), Some(number));
    }
    check_lists(&rt, rt.alloc(), &mut lanes, "64 lanes", LEFT);
}
