//! Connections that are served by a new server, a row each.
ghost use Rattle.std.specs.Prelude.{◌≡◌, false};

use crate::checks::check;
use crate::given::given;
use satip_desk::WorkerKit;
use satip_fixtures::CLIENT;
use satip_fixtures::texts::{CLOSING, OPTIONS, OPTIONS_REPLY, SETUP, is_joined, repeated};
use satip_memory::{MemoryConn, MemoryDoors, MemoryOutlet, MemoryPacer};
use satip_solo::connections::{GET, HEAD, KEY, SETUP_REPLY, Seen, serve_alone};
use satip_solo::setting::{letters, solo};
use satip_worker::{Room, WorkerEnd, run_worker};
use satip_world::{ConnEnd, DoorKind};
use std::alloc::Global;
use std::process::Abort;

const BEGINNING: &[u8] = b"OPTIONS * RTSP/1.0\r\nCSeq: 1\r\n";

// A connection, and what serving it is to come to. It receives these texts, each of them so often,
// alone or all at once; receives and sends of these numbers fail, and of a failing send so many
// bytes are passed.
#[derive(Clone, Copy)]
struct Row {
    name: &'static str,
    kind: DoorKind,
    texts: &'static [(&'static [u8], usize)],
    joined: bool,
    receives: &'static [u64],
    sends: &'static [u64],
    passed: usize,
    end: ConnEnd,
    kinds: &'static [u8],
    sent: &'static [&'static [u8]],
}

// An RTSP connection that receives its text at once, and ends well.
const RTSP: Row = Row {
    name: "",
    kind: DoorKind::Rtsp,
    texts: &[],
    joined: true,
    receives: &[],
    sends: &[],
    passed: 0,
    end: ConnEnd::Done,
    kinds: b"",
    sent: &[],
};

// An HTTP connection that receives a GET, and ends well.
const HTTP: Row = Row {
    kind: DoorKind::Http,
    texts: &[(GET, 1)],
    ..RTSP
};

const ROWS: &[Row] = &[
    Row {
        name: "a first receive that fails ends the connection",
        texts: &[(SETUP, 1)],
        receives: &[1],
        end: ConnEnd::ReadFault,
        ..RTSP
    },
    Row {
        name: "a later receive that fails ends the connection",
        texts: &[(SETUP, 1), (OPTIONS, 1)],
        joined: false,
        receives: &[2],
        end: ConnEnd::ReadFault,
        kinds: b"R",
        sent: &[SETUP_REPLY],
        ..RTSP
    },
    Row {
        name: "a send that fails passes a beginning",
        texts: &[(OPTIONS, 1)],
        sends: &[1],
        passed: 10,
        end: ConnEnd::WriteFault,
        kinds: b"R",
        sent: &[b"RTSP/1.0 2"],
        ..RTSP
    },
    Row {
        name: "a line without an end is no message",
        texts: &[(b"OPTIONS * RTSP/1.0", 1)],
        ..RTSP
    },
    Row {
        name: "a hundred thousand letters are answered once, and nothing behind them",
        texts: &[(b"a", 100000), (OPTIONS, 1)],
        kinds: b"R",
        sent: &[CLOSING],
        ..RTSP
    },
    Row {
        name: "a million ends of lines are no message",
        texts: &[(b"\n", 1000000)],
        ..RTSP
    },
    Row {
        name: "a length past all numbers closes",
        texts: &[
            (BEGINNING, 1),
            (b"Content-Length: 18446744073709551616\r\n\r\n", 1),
        ],
        kinds: b"R",
        sent: &[CLOSING],
        ..RTSP
    },
    Row {
        name: "a body of the greatest length is skipped",
        texts: &[
            (BEGINNING, 1),
            (b"Content-Length: 4096\r\n\r\n", 1),
            (b"a", 4096),
            (OPTIONS, 1),
        ],
        kinds: b"RR",
        sent: &[OPTIONS_REPLY, OPTIONS_REPLY],
        ..RTSP
    },
    Row {
        name: "two lengths close",
        texts: &[(BEGINNING, 1), (b"Content-Length: 0\r\n", 2), (b"\r\n", 1)],
        kinds: b"R",
        sent: &[CLOSING],
        ..RTSP
    },
    Row {
        name: "a head has 64 headers",
        texts: &[(BEGINNING, 1), (b"X: y\r\n", 63), (b"\r\n", 1)],
        kinds: b"R",
        sent: &[OPTIONS_REPLY],
        ..RTSP
    },
    Row {
        name: "a head has no more headers than 64",
        texts: &[(BEGINNING, 1), (b"X: y\r\n", 64), (b"\r\n", 1)],
        kinds: b"R",
        sent: &[CLOSING],
        ..RTSP
    },
    Row {
        name: "a GET without packets is closed at the end of its input",
        kinds: b"GLC",
        sent: &[HEAD],
        ..HTTP
    },
    Row {
        name: "a head that is not sent closes the session",
        sends: &[1],
        end: ConnEnd::WriteFault,
        kinds: b"GC",
        ..HTTP
    },
    Row {
        name: "a receive that fails behind an empty pull closes the session",
        receives: &[2],
        end: ConnEnd::ReadFault,
        kinds: b"GLC",
        sent: &[HEAD],
        ..HTTP
    },
];

// What a connection receives at a time.
fn pieces_of<'a>(rt: &impl Abort, alloc: Global, row: &Row, whole: &'a [u8]) -> Vec<&'a [u8]> {
    let mut pieces = Vec::new(alloc);
    if row.joined {
        pieces.push(whole).expect(rt, "out of memory");
        return pieces;
    }
    for (text, _) in row.texts {
        pieces.push(*text).expect(rt, "out of memory");
    }
    pieces
}

fn conn_of(rt: &impl Abort, alloc: Global, row: &Row) -> MemoryConn {
    let whole = given(rt, repeated(alloc, row.texts));
    let pieces = pieces_of(rt, alloc, row, &whole);
    MemoryConn::make(alloc, &pieces, row.receives, row.sends, row.passed).expect(
        rt,
        "out of memory",
    )
}

// Asserts that a connection comes to what its row says.
fn check_seen(rt: &impl Abort, seen: &Seen, row: &Row) {
    check(rt, row.name, &seen.end, &row.end);
    check(rt, row.name, &seen.kinds.as_slice(), &row.kinds);
    check(rt, row.name, &is_joined(&seen.sent, row.sent), &true);
}

#[test]
fn connections_come_to_what_their_rows_say(rt: HostRuntime) {
    for row in ROWS {
        let conn = conn_of(&rt, rt.alloc(), row);
        let seen = given(&rt, serve_alone(&rt, rt.alloc(), row.kind, conn));
        check_seen(&rt, &seen, row);
    }
}

// Doors by which one connection with OPTIONS comes, and which then fail.
fn failing_doors(rt: &impl Abort, alloc: Global) -> MemoryDoors {
    let conn = MemoryConn::make(alloc, &[OPTIONS], &[], &[], 0).expect(rt, "out of memory");
    let mut doors = MemoryDoors::make(alloc, 0, &[], &[2]).expect(rt, "out of memory");
    doors
        .add(DoorKind::Rtsp, CLIENT, conn)
        .expect(rt, "out of memory");
    doors
}

// A worker with those doors.
fn failing_worker(
    rt: &impl Abort,
    alloc: Global,
) -> WorkerKit<MemoryDoors, MemoryOutlet, MemoryPacer>
    ensures free { result.outlet.held ≡ false }
{
    let Ok(outlet) = MemoryOutlet::make(alloc, &[]) else {
        panic!(rt; "out of memory");
    };
    WorkerKit {
        doors: failing_doors(rt, alloc),
        outlet,
        pacer: MemoryPacer::new(),
        key: KEY,
    }
}

#[test]
fn a_worker_replies_before_its_doors_fail(rt: HostRuntime) {
    let alloc = rt.alloc();
    let mut solo = given(&rt, solo(alloc, None));
    let mut room = Room::make(alloc).expect(&rt, "out of memory");
    let mut kit = failing_worker(&rt, alloc);
    let end = run_worker(&rt, &mut solo, &mut kit, 0, &mut room);
    check(&rt, "end", &end, &WorkerEnd::DoorsFault);
    let kinds = given(&rt, letters(alloc, &solo));
    check(&rt, "kinds", &kinds.as_slice(), &b"R".as_slice());
    check(&rt, "connections", &kit.doors.returned().len(), &1);
    for handed in kit.doors.returned() {
        check(&rt, "end", &handed.end, &ConnEnd::Done);
        check(&rt, "sent", &handed.conn.sent(), &OPTIONS_REPLY);
    }
}
