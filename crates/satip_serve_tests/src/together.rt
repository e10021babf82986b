//! The command `serve` with two workers, two pumps and the ticker, each of which needs the others:
//! the first client plays only once the second was answered, and ends its session only once packets
//! were sent and the clock was read. Jobs that ran one after another would never get there.

use crate::deeds::{Deeds, Gate, OPEN};
use crate::outcomes::Outcome;
use crate::runs::{Ran, SERVE, SERVE_ALL, check, run};
use crate::waiting::Piece;
use crate::waiting_desk::{Plan, WaitingWorker};
use satip_fixtures::texts::{OPTIONS, OPTIONS_REPLY, SETUP};
use satip_world::DoorKind;
use std::alloc::Global;
use std::process::Abort;
use std::sync::Wait;
use std::thread::Threads;

/// A PLAY of stream 1.
pub const PLAY: &[u8] =
    b"PLAY rtsp://192.168.1.10/stream=1 RTSP/1.0\r\nCSeq: 1\r\nSession: 00000001d6df3fef\r\n\r\n";

/// A TEARDOWN of stream 1.
pub const TEARDOWN: &[u8] = b"TEARDOWN rtsp://192.168.1.10/stream=1 RTSP/1.0\r\n\
    CSeq: 1\r\n\
    Session: 00000001d6df3fef\r\n\r\n";

/// The replies to these three. The first draw of a key of zeros for stream 1, that of the first
/// worker, has the word d6df3fef and the first number 53237 (the first words of that ChaCha20
/// stream).
pub const REPLIES: &[u8] = b"RTSP/1.0 200 OK\r\n\
    CSeq: 1\r\n\
    Session: 00000001d6df3fef;timeout=60\r\n\
    Transport: RTP/AVP;unicast;client_port=1400-1401\r\n\
    com.ses.streamID: 1\r\n\r\n\
    RTSP/1.0 200 OK\r\n\
    CSeq: 1\r\n\
    Session: 00000001d6df3fef\r\n\
    RTP-Info: url=rtsp://192.168.1.10/stream=1;seq=53237\r\n\r\n\
    RTSP/1.0 200 OK\r\n\
    CSeq: 1\r\n\r\n";

// The first client plays once the second was answered, and tears down once seven packets were sent
// and the clock was read three times.
const FIRST: &[Piece] = &[
    Piece {
        text: SETUP,
        gate: OPEN,
    },
    Piece {
        text: PLAY,
        gate: Gate { second: 1, ..OPEN },
    },
    Piece {
        text: TEARDOWN,
        gate: Gate {
            packets: 7,
            readings: 3,
            ..OPEN
        },
    },
];

/// Each other client asks for the options.
pub const OTHERS: &[Piece] = &[Piece {
    text: OPTIONS,
    gate: OPEN,
}];

/// The pumps wait until the PLAY was answered.
pub const PLAN: Plan = Plan {
    workers: 2,
    first: FIRST,
    others: OTHERS,
    kind: DoorKind::Rtsp,
    port: 1400,
    pumps: Gate { first: 2, ..OPEN },
    step: 0,
};

// Each of the five jobs has paused.
const MET: Gate = Gate { jobs: 5, ..OPEN };

const MEETING: &[Piece] = &[Piece {
    text: OPTIONS,
    gate: MET,
}];

// Both clients, and the pumps, wait until each job has come to its first pause.
const MEETING_PLAN: Plan = Plan {
    workers: 2,
    first: MEETING,
    others: MEETING,
    kind: DoorKind::Rtsp,
    port: 1,
    pumps: MET,
    step: 0,
};

// The outcome for the kits of workers, whose first client was sent these bytes.
fn outcome_of(workers: &[WaitingWorker], count: usize, sent: &[u8]) -> Outcome {
    let Some((first, others)) = workers.split_first() else {
        return Outcome::WrongKits;
    };
    if workers.len() != count {
        return Outcome::WrongKits;
    }
    if first.doors.have_sent(sent) && others.iter().all(|kit| kit.doors.have_sent(OPTIONS_REPLY)) {
        Outcome::Served
    } else {
        Outcome::WrongBytes
    }
}

/// Returns the outcome of a run with this number of workers, whose first client was sent these
/// bytes.
pub fn outcome(ran: &Ran, workers: usize, sent: &[u8]) -> Outcome {
    ran.outcome(
        workers,
        match &ran.ended.last {
            Some(last) => Some(outcome_of(&last.jobs.workers, workers, sent)),
            None => None,
        },
    )
}

/// Asserts that no connection waited in vain in a run with this name, and its outcome.
pub fn check_outcome(rt: &impl Abort, name: &str, deeds: &Deeds, outcome: Outcome) {
    check(rt, name, ("gave_up", deeds.gave_up()), ("gave_up", false));
    check(rt, name, outcome, Outcome::Served);
}

// A serve with two workers.
#[derive(Clone, Copy)]
struct Row {
    name: &'static str,
    words: &'static [&'static str],
    plan: Plan,
    // The bytes that the first client is sent.
    sent: &'static [u8],
}

const ROWS: &[Row] = &[
    // Jobs that ran one after another would never come together.
    Row {
        name: "all jobs of a serve meet",
        words: SERVE,
        plan: MEETING_PLAN,
        sent: OPTIONS_REPLY,
    },
    // Without a limit the doors of each worker end by themselves, after their connection.
    Row {
        name: "a serve without a limit ends with its doors",
        words: SERVE_ALL,
        plan: PLAN,
        sent: REPLIES,
    },
];

// Serves by a row, and asserts its outcome.
fn check_row<R: Threads + Wait + Sync + Abort>(rt: &R, alloc: Global, row: &Row) {
    let deeds = Deeds::new();
    let ran = run(rt, alloc, row.words, b"", row.plan, &deeds);
    check_outcome(rt, row.name, &deeds, outcome(&ran, 2, row.sent));
}

#[test]
fn jobs_of_a_serve_wait_for_each_other(rt: HostRuntime) {
    for row in ROWS {
        check_row(&rt, rt.alloc(), row);
    }
}

#[test]
fn two_workers_play_a_recording_together(rt: HostRuntime) {
    let deeds = Deeds::new();
    let ran = run(&rt, rt.alloc(), SERVE, b"", PLAN, &deeds);
    let outcome = outcome(&ran, 2, REPLIES);
    println!(rt; "{outcome}").expect(&rt, "output");
    check_outcome(&rt, "two workers", &deeds, outcome);
}

// Returns whether the ticker's clock came back, and exposes all its readings.
fn has_told(ran: &Ran) -> bool {
    match &ran.ended.last {
        Some(last) => last.jobs.tick.clock.is_told(),
        None => false,
    }
}

#[test]
fn a_clock_of_1000_moments_is_exposed_to_the_end(rt: HostRuntime) {
    let deeds = Deeds::new();
    let plan = Plan { step: 1, ..PLAN };
    let ran = run(&rt, rt.alloc(), SERVE, b"", plan, &deeds);
    check_outcome(&rt, "clock", &deeds, outcome(&ran, 2, REPLIES));
    check(&rt, "exposed", has_told(&ran), true);
}
