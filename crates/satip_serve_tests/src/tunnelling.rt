//! The command `tunnel`: RTP inside the RTSP connections (RFC 2326, section 10.12).

use crate::deeds::{Deeds, Gate, OPEN};
use crate::outcomes::Outcome;
use crate::runs::{Ran, TUNNEL, TUNNEL_ALL, check, run};
use crate::together::{OTHERS, PLAY, TEARDOWN, check_outcome};
use crate::waiting::{Piece, Served, WaitingDoors};
use crate::waiting_desk::{Plan, WaitingWorker};
use satip_fixtures::texts::{OPTIONS_REPLY, SETUP_INTERLEAVED};
use satip_world::{ConnEnd, DoorKind};
use std::alloc::Global;
use std::process::Abort;
use std::sync::Wait;
use std::thread::Threads;

// The replies to SETUP and PLAY, with the first draw of a key of zeros for stream 1, as in a serve.
const BEGUN: &[u8] = b"RTSP/1.0 200 OK\r\n\
    CSeq: 1\r\n\
    Session: 00000001d6df3fef;timeout=60\r\n\
    Transport: RTP/AVP/TCP;unicast;interleaved=0-1\r\n\
    com.ses.streamID: 1\r\n\r\n\
    RTSP/1.0 200 OK\r\n\
    CSeq: 1\r\n\
    Session: 00000001d6df3fef\r\n\
    RTP-Info: url=rtsp://192.168.1.10/stream=1;seq=53237\r\n\r\n";

// The reply to TEARDOWN.
const OVER: &[u8] = b"RTSP/1.0 200 OK\r\nCSeq: 1\r\n\r\n";

// The first client plays once the second was answered, and tears down once it was idle behind the
// PLAY, and frames were sent to it behind that.
const FIRST: &[Piece] = &[
    Piece {
        text: SETUP_INTERLEAVED,
        gate: OPEN,
    },
    Piece {
        text: PLAY,
        gate: Gate { second: 1, ..OPEN },
    },
    Piece {
        text: TEARDOWN,
        gate: Gate {
            idles: 1,
            frames: 1,
            ..OPEN
        },
    },
];

// A client over HTTP asks for PID 16 once the first client's SETUP was answered, and ends its input
// once packets were sent to it behind the head.
const STREAM: &[Piece] = &[
    Piece {
        text: b"GET /?src=1&freq=11361.75&pol=h&msys=dvbs2&sr=22000&pids=16 HTTP/1.1\r\n\r\n",
        gate: Gate { first: 1, ..OPEN },
    },
    Piece {
        text: b"\r\n",
        gate: Gate { second: 2, ..OPEN },
    },
];

// The head of the reply to it.
const STREAMING: &[u8] =
    b"HTTP/1.1 200 OK\r\nContent-Type: video/mp2t\r\nConnection: close\r\n\r\n";

// The pumps wait until the first client was idle behind the PLAY.
const PLAN: Plan = Plan {
    workers: 2,
    first: FIRST,
    others: OTHERS,
    kind: DoorKind::Rtsp,
    port: 1,
    pumps: Gate { idles: 1, ..OPEN },
    step: 0,
};

// The bytes after the frame of channel 0 or 1 that these bytes begin with; None if they begin with
// no such frame.
fn after_frame(bytes: &[u8]) -> Option<&[u8]> {
    if bytes.len() < 4 || bytes[0] != 0x24 || bytes[1] > 1 {
        return None;
    }
    let length = 4 + (bytes[2] as usize) * 256 + bytes[3] as usize;
    if bytes.len() < length {
        return None;
    }
    Some(bytes.split_at(length).1)
}

// Whether these are whole frames and, behind one of them, one reply to TEARDOWN.
fn is_played_out(bytes: &[u8]) -> bool {
    let mut rest = bytes;
    let mut framed = false;
    let mut over = false;
    for _ in 0..bytes.len() {
        if let Some(behind) = after_frame(rest) {
            framed = true;
            rest = behind;
        } else if let Some(behind) = rest.strip_prefix(OVER) {
            if over || !framed {
                return false;
            }
            over = true;
            rest = behind;
        }
    }
    over && rest.is_empty()
}

// Whether a connection was sent the replies with frames between them, and its service ended well.
// What waits in its lane leaves behind the last reply.
fn has_played(served: Option<&Served>) -> bool {
    let Some(served) = served else {
        return false;
    };
    match served.sent.strip_prefix(BEGUN) {
        Some(behind) => served.end == ConnEnd::Done && is_played_out(behind),
        None => false,
    }
}

// Whether these are packets of PID 16, at least one.
fn are_packets(bytes: &[u8]) -> bool {
    !bytes.is_empty()
        && bytes.chunks(188).all(|packet| packet.len() == 188 && packet.starts_with(&[0x47, 0, 16]))
}

// Whether a connection over HTTP was sent the head and then packets, and its service ended well.
fn has_streamed(served: Option<&Served>) -> bool {
    let Some(served) = served else {
        return false;
    };
    match served.sent.strip_prefix(STREAMING) {
        Some(behind) => served.end == ConnEnd::Done && are_packets(behind),
        None => false,
    }
}

// Whether the second client got what it asked for, by the kind of its connection.
fn has_been_answered(kind: DoorKind, doors: &WaitingDoors) -> bool {
    match kind {
        DoorKind::Rtsp => doors.have_sent(OPTIONS_REPLY),
        DoorKind::Http => has_streamed(doors.served()),
    }
}

// The outcome for the kits of workers, the first of which played. The second one's connection was
// of this kind.
fn outcome_of(workers: &[WaitingWorker], kind: DoorKind) -> Outcome {
    match workers {
        [first, second] => {
            if has_played(first.doors.served()) && has_been_answered(kind, &second.doors) {
                Outcome::Served
            } else {
                Outcome::WrongBytes
            }
        }
        _ => Outcome::WrongKits,
    }
}

// The outcome of a run whose second connection was of this kind.
fn outcome(ran: &Ran, kind: DoorKind) -> Outcome {
    ran.outcome(
        2,
        match &ran.ended.tunnel {
            Some(left) => Some(outcome_of(&left.jobs.workers, kind)),
            None => None,
        },
    )
}

// Serves through a tunnel, and asserts that its clients were served.
fn check_tunnel<R: Threads + Wait + Sync + Abort>(
    rt: &R,
    alloc: Global,
    name: &str,
    words: &[&str],
    plan: Plan,
) {
    let deeds = Deeds::new();
    let ran = run(rt, alloc, words, b"", plan, &deeds);
    check(rt, name, ran.ended.last.is_some(), false);
    check_outcome(rt, name, &deeds, outcome(&ran, plan.kind));
}

// A connection that doesn't send frames while nothing comes in would never be torn down. Without a
// limit the doors of each worker end by themselves, after their connection.
#[test]
fn frames_are_sent_while_a_connection_is_idle(rt: HostRuntime) {
    for (name, words) in [("one connection", TUNNEL), ("without a limit", TUNNEL_ALL)] {
        check_tunnel(&rt, rt.alloc(), name, words, PLAN);
    }
}

// A stream over HTTP runs beside, over the same front end.
#[test]
fn a_stream_over_http_runs_beside_a_tunnel(rt: HostRuntime) {
    let plan = Plan {
        others: STREAM,
        kind: DoorKind::Http,
        ..PLAN
    };
    check_tunnel(&rt, rt.alloc(), "over HTTP", TUNNEL, plan);
}
