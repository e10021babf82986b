//! Replays over devices that fail.

use crate::checks::check;
use crate::runs::{EMPTY, Ran, Row, check_ran, run, run_long, run_rows};
use satip_fixtures::texts::CONFIGURATION;
use satip_memory::MemorySource;
use satip_memory_desk::MemoryDesk;
use std::alloc::Global;
use std::process::Abort;

const WORDS: &[&str] = &["replay", "c1.toml"];

const STOP: &[u8] = b"stop\n";

// Runs a replay of a stop over a desk.
fn stopped(rt: &impl Abort, alloc: Global, desk: &mut MemoryDesk) -> Ran {
    let input = MemorySource::make(alloc, STOP, &[], &[]).expect(rt, "out of memory");
    run(rt, alloc, WORDS, input, &[], 0, desk)
}

// Returns a desk that doesn't open its configuration at the first call.
fn desk(rt: &impl Abort, alloc: Global) -> MemoryDesk {
    let mut desk = MemoryDesk::make(alloc, 1);
    desk.add("c1.toml", CONFIGURATION.as_bytes(), &[])
        .expect(rt, "out of memory");
    desk
}

#[test]
fn a_configuration_that_cannot_be_opened_is_an_input_fault(rt: HostRuntime) {
    let mut desk = desk(&rt, rt.alloc());
    let unopened = stopped(&rt, rt.alloc(), &mut desk);
    check_ran(&rt, "unopened", &unopened, 5, false, b"", b"input fault\n");
    let opened = stopped(&rt, rt.alloc(), &mut desk);
    check(&rt, "opened", opened.status, 0);
}

// A replay of a stop by two front ends, whose input fails. A put that fails passes nine bytes.
const UNREAD: Row = Row {
    name: "a take",
    words: WORDS,
    text: CONFIGURATION,
    input: &[(STOP, 1)],
    passed: 9,
    status: 5,
    config: true,
    errors: b"input fault\n",
    ..EMPTY
};

const UNREAD_TEXTS: &[Row] = &[
    Row {
        name: "a take: the first",
        text_faults: &[1],
        ..UNREAD
    },
    Row {
        name: "a take: the second",
        text_faults: &[2],
        ..UNREAD
    },
];

#[test]
fn a_take_of_a_configuration_that_fails_is_an_input_fault(rt: HostRuntime) {
    run_rows(&rt, rt.alloc(), UNREAD_TEXTS);
}

const UNREAD_SCRIPTS: &[Row] = &[
    Row {
        name: "a take: the first",
        pieces: &[3],
        take_faults: &[1],
        ..UNREAD
    },
    Row {
        name: "a take: the second",
        pieces: &[3],
        take_faults: &[2],
        ..UNREAD
    },
];

#[test]
fn a_take_of_a_script_that_fails_is_an_input_fault(rt: HostRuntime) {
    run_rows(&rt, rt.alloc(), UNREAD_SCRIPTS);
}

const FAILING_PUTS: &[Row] = &[Row {
    name: "the first put",
    input: &[(b"tick 1\nask 1\n", 1)],
    put_faults: &[1],
    status: 6,
    output: &[b"going\nnot"],
    errors: b"output fault\n",
    ..UNREAD
}];

#[test]
fn an_output_that_fails_has_a_beginning_of_the_printed_run(rt: HostRuntime) {
    run_rows(&rt, rt.alloc(), FAILING_PUTS);
}

const LONG: Row = Row {
    name: "a byte more",
    status: 8,
    errors: b"input too long\n",
    ..UNREAD
};

const LINE_ENDS: &Row = &Row {
    name: "a byte more: line ends",
    ..LONG
};

const NUMBER_SIGNS: &Row = &Row {
    name: "a byte more: number signs",
    ..LONG
};

#[test]
fn an_input_of_67108865_bytes_is_too_long(rt: HostRuntime) {
    run_long(&rt, rt.alloc(), LINE_ENDS, b'\n');
    run_long(&rt, rt.alloc(), NUMBER_SIGNS, b'#');
}
