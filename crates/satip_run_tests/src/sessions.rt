//! RTSP connections of sessions whose devices fail.

use crate::checks::check;
use crate::given::given;
use satip_fixtures::texts::{SETUP, is_joined, joined};
use satip_memory::MemoryConn;
use satip_solo::connections::{PLAY, SETUP_REPLY, Seen, serve_and_ask, serve_playing};
use satip_world::ConnEnd;
use std::alloc::Global;
use std::process::Abort;
use std::sync::Wait;

const TEARDOWN: &[u8] = b"TEARDOWN rtsp://192.168.1.10/stream=1 RTSP/1.0\r\n\
    CSeq: 1\r\n\
    Session: 000000010000000a\r\n\r\n";

const TEARDOWN_REPLY: &[u8] = b"RTSP/1.0 200 OK\r\nCSeq: 1\r\n\r\n";

const OPTIONS_OF_SESSION: &[u8] =
    b"OPTIONS * RTSP/1.0\r\nCSeq: 3\r\nSession: 00000001ade0b876\r\n\r\n";

const PLAY_REPLY: &[u8] = b"RTSP/1.0 200 OK\r\n\
    CSeq: 2\r\n\
    Session: 00000001ade0b876\r\n\
    RTP-Info: url=rtsp://192.168.1.10/stream=1;seq=23872\r\n\r\n";

// The sends of these numbers that fail at the outlet, and the datagrams that it sends.
const FAILING: &[(&[u64], usize)] = &[(&[1, 2], 0), (&[], 1)];

// Serves a TEARDOWN of the first stream. The sends of these numbers fail at the outlet.
fn check_tear_down<R: Wait + Sync + Abort>(
    rt: &R,
    alloc: Global,
    failing: &[u64],
    datagrams: usize,
) {
    let conn = MemoryConn::make(alloc, &[TEARDOWN], &[], &[], 0).expect(rt, "out of memory");
    let seen = given(rt, serve_playing(rt, alloc, conn, failing));
    check(rt, "end", &seen.end, &ConnEnd::Done);
    check(rt, "sent", &seen.sent.as_slice(), &TEARDOWN_REPLY);
    check(rt, "datagrams", &seen.datagrams, &datagrams);
}

#[test]
fn an_outlet_that_fails_changes_nothing_else(rt: HostRuntime) {
    for (failing, datagrams) in FAILING {
        check_tear_down(&rt, rt.alloc(), failing, *datagrams);
    }
}

// A connection with a SETUP, a PLAY, and an OPTIONS whose reply isn't sent.
fn session_conn(rt: &impl Abort, alloc: Global) -> MemoryConn {
    let text = given(rt, joined(alloc, &[SETUP, PLAY, OPTIONS_OF_SESSION]));
    MemoryConn::make(alloc, &[&text], &[], &[3], 0).expect(rt, "out of memory")
}

// A DESCRIBE at each of two moments is answered until the session ends.
#[test]
fn a_session_lives_after_its_third_send_failed(rt: HostRuntime) {
    let conn = session_conn(&rt, rt.alloc());
    let asked = serve_and_ask(&rt, rt.alloc(), conn, [59999, 60000]);
    let (seen, statuses) = given(&rt, asked);
    check(&rt, "end", &seen.end, &ConnEnd::WriteFault);
    check(&rt, "kinds", &seen.kinds.as_slice(), &b"RRR".as_slice());
    check(&rt, "statuses", &statuses, &[200, 404]);
    assert!(rt; is_joined(&seen.sent, &[SETUP_REPLY, PLAY_REPLY]));
}
