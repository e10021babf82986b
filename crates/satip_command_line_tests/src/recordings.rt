//! Recordings whose reply never comes or ends early, and over devices that fail.

use crate::checks::check;
use crate::runs::{Ran, check_ran, run};
use satip_fixtures::recordings::{ACCEPTED, ADDRESS, GRANTED, HEAD, QUERY, datagram};
use satip_memory::{MemoryClock, MemoryConn, MemoryInlet, MemorySource};
use satip_memory_desk::MemoryDesk;
use std::alloc::Global;
use std::process::Abort;

// Returns a desk with a connection on which these pieces come in, and an inlet with these
// datagrams, whose call with the number `failing` fails.
fn desk_with(
    rt: &impl Abort,
    alloc: Global,
    pieces: &[&[u8]],
    datagrams: &[&[u8]],
    failing: u64,
) -> MemoryDesk {
    let Ok(wire) = MemoryConn::make(alloc, pieces, &[], &[], 0) else {
        panic!(rt; "out of memory");
    };
    let Ok(inlet) = MemoryInlet::make(alloc, 5000, datagrams, &[], &[failing]) else {
        panic!(rt; "out of memory");
    };
    let Ok(clock) = MemoryClock::make(alloc, &[5, 6, 7, 8]) else {
        panic!(rt; "out of memory");
    };
    let mut desk = MemoryDesk::make(alloc, 0);
    desk.lend(Some(wire), Some(inlet), Some(clock));
    desk
}

// Records over a desk. The put with the number `failing` fails after 100 bytes.
fn record(rt: &impl Abort, alloc: Global, desk: &mut MemoryDesk, failing: u64) -> Ran {
    let input = MemorySource::make(alloc, b"", &[], &[]).expect(rt, "out of memory");
    let words = ["record", ADDRESS, QUERY, "2"];
    run(rt, alloc, &words, input, &[failing], 100, desk)
}

// Records from a connection on which these pieces come in.
fn record_from(rt: &impl Abort, alloc: Global, pieces: &[&[u8]]) -> Ran {
    let mut desk = desk_with(rt, alloc, pieces, &[], 0);
    record(rt, alloc, &mut desk, 0)
}

// Returns this number of empty pieces.
fn nothing(rt: &impl Abort, alloc: Global, count: u32) -> Vec<&'static [u8]> {
    let piece: &'static [u8] = b"";
    let mut pieces = Vec::new(alloc);
    for _ in 0..count {
        pieces.push(piece).expect(rt, "out of memory");
    }
    pieces
}

#[test]
fn a_reply_that_never_comes_is_silence(rt: HostRuntime) {
    let pieces = nothing(&rt, rt.alloc(), 10001);
    let ran = record_from(&rt, rt.alloc(), &pieces);
    check_ran(&rt, "no reply", &ran, 12, false, b"", b"silent\n");
}

// Asserts the end of a recording whose connection ends after the first bytes of the reply.
fn check_early_end(rt: &impl Abort, alloc: Global, reply: &[u8]) {
    let ran = record_from(rt, alloc, &[reply]);
    let got = (reply.len(), ran.status, ran.output(), ran.errors());
    let wanted = (reply.len(), 14, b"".as_slice(), b"closed\n".as_slice());
    check(rt, "bytes of a reply", got, wanted);
}

// Asserts the end of a recording for each shorter part of this reply.
fn check_early_ends(rt: &impl Abort, alloc: Global, reply: &[u8]) {
    for length in 0..reply.len() {
        check_early_end(rt, alloc, &reply[..length]);
    }
}

#[test]
fn a_reply_that_ends_early_is_an_end(rt: HostRuntime) {
    check_early_ends(&rt, rt.alloc(), GRANTED);
}

#[test]
fn a_failing_inlet_is_a_fault_of_the_peer(rt: HostRuntime) {
    let mut desk = desk_with(&rt, rt.alloc(), &[GRANTED, ACCEPTED], &[], 1);
    let ran = record(&rt, rt.alloc(), &mut desk, 0);
    check_ran(&rt, "the inlet", &ran, 13, false, b"", b"peer fault\n");
}

// Asserts that a recording of a datagram whose first put fails has 100 bytes of its first packet.
fn check_failing_put(rt: &impl Abort, alloc: Global, datagram: &[u8]) {
    let mut desk = desk_with(rt, alloc, &[GRANTED, ACCEPTED], &[datagram], 0);
    let ran = record(rt, alloc, &mut desk, 1);
    let got = (ran.status, ran.output(), ran.errors());
    let front = datagram.get(HEAD..HEAD + 100).unwrap_or(b"none");
    check(
        rt,
        "the first put",
        got,
        (6, front, b"output fault\n".as_slice()),
    );
}

#[test]
fn a_failing_output_is_told(rt: HostRuntime) {
    check_failing_put(&rt, rt.alloc(), &datagram(9));
}
