//! Audits over devices that fail.

use crate::runs::{EMPTY, Row, run_long, run_rows};

// An audit of the stop, answered `Stopping`, by caller 0 at place 0. A put that fails passes five
// bytes.
const AUDIT: Row = Row {
    name: "a stop",
    words: &["audit", "c1.toml"],
    text: "address = \"192.168.1.10\"\n[[frontend]]\nsources = [1]\nsystems = [\"dvbs\"]\n",
    input: &[(b"start 0\nentry 0 0 080201000000000000\n", 1)],
    passed: 5,
    config: true,
    ..EMPTY
};

const UNREAD_JOURNALS: &[Row] = &[Row {
    name: "the second take",
    pieces: &[3],
    take_faults: &[2],
    status: 5,
    errors: b"input fault\n",
    ..AUDIT
}];

#[test]
fn a_journal_that_fails_is_an_input_fault(rt: HostRuntime) {
    run_rows(&rt, rt.alloc(), UNREAD_JOURNALS);
}

const UNREAD_TEXTS: &[Row] = &[Row {
    name: "the first take",
    text_faults: &[1],
    status: 5,
    errors: b"input fault\n",
    ..AUDIT
}];

#[test]
fn a_configuration_that_fails_is_an_input_fault(rt: HostRuntime) {
    run_rows(&rt, rt.alloc(), UNREAD_TEXTS);
}

const FAILING_PUTS: &[Row] = &[Row {
    name: "the first put",
    put_faults: &[1],
    status: 6,
    output: &[b"yes 1"],
    errors: b"output fault\n",
    ..AUDIT
}];

#[test]
fn an_output_that_fails_is_an_output_fault(rt: HostRuntime) {
    run_rows(&rt, rt.alloc(), FAILING_PUTS);
}

const LONG: &Row = &Row {
    name: "a byte more",
    status: 8,
    errors: b"input too long\n",
    ..AUDIT
};

#[test]
fn an_input_of_67108865_bytes_is_too_long(rt: HostRuntime) {
    run_long(&rt, rt.alloc(), LONG, b'\n');
}
