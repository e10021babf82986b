//! Talks in pieces, with takes and puts that fail, and the replies that one put has.

use crate::checks::{check, check_above, given};
use crate::runs::{EMPTY, Ran, Row, run, run_long, run_rows};
use satip_fixtures::texts::{CLOSING, OPTIONS, OPTIONS_REPLY, repeated};
use satip_memory::MemorySource;
use satip_memory_desk::MemoryDesk;
use std::alloc::Global;
use std::process::Abort;

// A talk that asks for the options. A put that fails passes nine bytes.
const TALK: Row = Row {
    name: "options",
    words: &["talk"],
    input: &[(OPTIONS, 1)],
    passed: 9,
    output: &[OPTIONS_REPLY],
    ..EMPTY
};

const CUTS: &[Row] = &[
    Row {
        name: "byte by byte",
        pieces: &[1; 32],
        ..TALK
    },
    Row {
        name: "within line ends",
        pieces: &[19, 9, 2, 1],
        ..TALK
    },
];

#[test]
fn options_is_answered_however_it_is_cut(rt: HostRuntime) {
    run_rows(&rt, rt.alloc(), CUTS);
}

const LONG: &Row = &Row {
    name: "a byte more",
    status: 8,
    output: &[],
    errors: b"input too long\n",
    ..TALK
};

#[test]
fn an_input_has_at_most_67108864_bytes(rt: HostRuntime) {
    run_long(&rt, rt.alloc(), LONG, b'\n');
}

const FAILING_TAKES: &[Row] = &[Row {
    name: "the second take",
    pieces: &[31],
    take_faults: &[2],
    status: 5,
    errors: b"input fault\n",
    ..TALK
}];

#[test]
fn a_take_that_fails_is_an_input_fault(rt: HostRuntime) {
    run_rows(&rt, rt.alloc(), FAILING_TAKES);
}

const FAILING_PUTS: &[Row] = &[
    Row {
        name: "the first put",
        put_faults: &[1],
        status: 6,
        output: &[b"RTSP/1.0 "],
        errors: b"output fault\n",
        ..TALK
    },
    Row {
        name: "the second put",
        input: &[(OPTIONS, 2)],
        put_faults: &[2],
        status: 6,
        output: &[OPTIONS_REPLY, b"RTSP/1.0 "],
        errors: b"output fault\n",
        ..TALK
    },
    Row {
        name: "the second put, which passes nothing",
        input: &[(OPTIONS, 2)],
        put_faults: &[2],
        passed: 0,
        status: 6,
        output: &[OPTIONS_REPLY],
        errors: b"output fault\n",
        ..TALK
    },
];

#[test]
fn a_put_that_fails_is_an_output_fault(rt: HostRuntime) {
    run_rows(&rt, rt.alloc(), FAILING_PUTS);
}

// If the third put would fail and the talk ends well, one put has all replies but the first.
const THIRD_PUTS: &[Row] = &[
    Row {
        name: "three messages at once",
        input: &[(OPTIONS, 3)],
        put_faults: &[3],
        output: &[OPTIONS_REPLY, OPTIONS_REPLY, OPTIONS_REPLY],
        ..TALK
    },
    Row {
        name: "a reply that closes",
        input: &[(OPTIONS, 1), (b"OPTIONS\r\n\r\n", 1), (OPTIONS, 1)],
        put_faults: &[3],
        output: &[OPTIONS_REPLY, CLOSING],
        ..TALK
    },
    Row {
        name: "a third message by itself",
        input: &[(OPTIONS, 3)],
        pieces: &[62],
        put_faults: &[3],
        status: 6,
        output: &[OPTIONS_REPLY, OPTIONS_REPLY, b"RTSP/1.0 "],
        errors: b"output fault\n",
        ..TALK
    },
];

#[test]
fn replies_after_the_first_to_a_take_are_put_together(rt: HostRuntime) {
    run_rows(&rt, rt.alloc(), THIRD_PUTS);
}

// A SETUP of a target without a tuning.
const SETUP: &[u8] = b"SETUP rtsp://127.0.0.1/ RTSP/1.0\r\n\
    CSeq: 1\r\n\
    Transport: RTP/AVP;unicast;client_port=1400-1401\r\n\r\n";

// A DESCRIBE of all streams.
const DESCRIBE: &[u8] = b"DESCRIBE rtsp://127.0.0.1/ RTSP/1.0\r\nCSeq: 2\r\n\r\n";

// Runs a talk in which 40 sessions are created, and described `count` times.
fn described(rt: &impl Abort, alloc: Global, count: usize, failing: &[u64]) -> Ran {
    let text = given(rt, repeated(alloc, &[(SETUP, 40), (DESCRIBE, count)]));
    let input = MemorySource::make(alloc, &text, &[], &[]).expect(rt, "out of memory");
    let mut desk = MemoryDesk::make(alloc, 0);
    run(rt, alloc, &["talk"], input, failing, 9, &mut desk)
}

// Returns the replies of such a talk, by one that describes nothing and one that describes once.
fn descriptions(rt: &impl Abort, alloc: Global, count: usize) -> Vec<u8> {
    let none = described(rt, alloc, 0, &[]);
    let once = described(rt, alloc, 1, &[]);
    let front = none.output();
    let reply = once.output().strip_prefix(front).expect(rt, "reply");
    given(rt, repeated(alloc, &[(front, 1), (reply, count)]))
}

#[test]
fn replies_for_which_there_is_no_room_are_put_in_order(rt: HostRuntime) {
    let replies = descriptions(&rt, rt.alloc(), 80);
    check_above(&rt, "replies", replies.len(), 5 * 65536);
    let many = described(&rt, rt.alloc(), 80, &[]);
    check(&rt, "replies", many.output(), replies.as_slice());
}

// Asserts that a talk whose put failed sent a prefix of these replies, of more than 65536 bytes.
fn check_prefix<'a>(rt: &impl Abort, failed: &'a Ran, replies: &'a [u8]) {
    let sent = failed.output();
    let (prefix, _) = replies.split_at(sent.len().min(replies.len()));
    check(rt, "status", failed.status, 6);
    check(rt, "sent", sent, prefix);
    check_above(rt, "sent", sent.len(), 65536);
}

#[test]
fn a_put_that_fails_for_lack_of_room_leaves_a_prefix(rt: HostRuntime) {
    let replies = descriptions(&rt, rt.alloc(), 80);
    check_prefix(&rt, &described(&rt, rt.alloc(), 80, &[6]), &replies);
}
