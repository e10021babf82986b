//! Connections and workers over memory and a scripted service.
ghost use Rattle.std.specs.Prelude.{◌≡◌, false};

mod script;

use satip_base::{Draw, Peer};
use satip_desk::WorkerKit;
use satip_fixtures::texts::{is_joined, joined};
use satip_memory::{MemoryConn, MemoryDoors, MemoryOutlet, MemoryPacer};
use satip_plain::Pulled;
use satip_worker::*;
use satip_world::{ConnEnd, DoorKind};
use script::Scripted;
use std::alloc::Global;
use std::sync::Wait;
use std::test::Fail;

const CLIENT: Peer = Peer { ip: 0x7f00_0001 };

const KEY: [u8; 32] = [7; 32];

const NO_PULLS: [Pulled; 4] = [Pulled::Gone; 4];

// The bytes of OK.
const BYTES: Pulled = Pulled::Bytes(19);

const SETUP: &[u8] =
    b"SETUP rtsp://192.168.1.10/?src=1&freq=12402&pol=v&msys=dvbs&sr=27500 RTSP/1.0\r\n\
    CSeq: 1\r\n\
    Transport: RTP/AVP;unicast;client_port=1400-1401\r\n\r\n";

const PLAY: &[u8] =
    b"PLAY rtsp://192.168.1.10/stream=1 RTSP/1.0\r\nCSeq: 2\r\nSession: 0000000100000007\r\n\r\n";

const OPTIONS: &[u8] = b"OPTIONS * RTSP/1.0\r\nCSeq: 3\r\nSession: 0000000100000007\r\n\r\n";

const GET: &[u8] = b"GET /?freq=12402&pol=v&msys=dvbs&sr=27500 HTTP/1.1\r\n\r\n";

const OK: &[u8] = b"RTSP/1.0 200 OK\r\n\r\n";

const BAD: &[u8] = b"RTSP/1.0 400 Bad Request\r\n\r\n";

const HEAD: &[u8] = b"HTTP/1.1 200 OK\r\n";

// A connection over a scripted service, and what serving it is to come to. It receives these
// pieces, each alone or all at once; sends and posts of these numbers fail, and of a failing send
// so many bytes are passed. The service starts a session at a GET or refuses it, answers pulls so,
// sends a datagram at each call or none, and has room for so many entries. The number of the
// pauses, datagrams and draws is looked at where it is given.
#[derive(Clone, Copy)]
struct Row {
    name: &'static str,
    kind: DoorKind,
    pieces: &'static [&'static [u8]],
    joined: bool,
    sends: &'static [u64],
    passed: usize,
    posts: &'static [u64],
    starts: bool,
    pulls: [Pulled; 4],
    posting: bool,
    room: u8,
    end: ConnEnd,
    kinds: [u8; 4],
    sent: &'static [&'static [u8]],
    pauses: Option<u64>,
    datagrams: Option<usize>,
    draws: usize,
}

// An RTSP connection that receives nothing, over a service with room for four entries.
const RTSP: Row = Row {
    name: "",
    kind: DoorKind::Rtsp,
    pieces: &[],
    joined: false,
    sends: &[],
    passed: 0,
    posts: &[],
    starts: true,
    pulls: NO_PULLS,
    posting: false,
    room: 4,
    end: ConnEnd::Done,
    kinds: *b"----",
    sent: &[],
    pauses: None,
    datagrams: None,
    draws: 0,
};

// An HTTP connection that receives a GET, over a service with room for four entries.
const HTTP: Row = Row {
    kind: DoorKind::Http,
    pieces: &[GET],
    ..RTSP
};

const ROWS: &[Row] = &[
    Row {
        name: "a failed send ends the connection behind three entries",
        pieces: &[SETUP, PLAY, OPTIONS, OPTIONS],
        joined: true,
        sends: &[3],
        passed: 8,
        end: ConnEnd::WriteFault,
        kinds: *b"RRR-",
        sent: &[OK, OK, b"RTSP/1.0"],
        draws: 3,
        ..RTSP
    },
    Row {
        name: "messages are answered however they are cut",
        pieces: &[b"", b"OPTIONS * RTSP/1.0\r\nCS", b"", b"eq: 3\r\n\r\n"],
        kinds: *b"R---",
        sent: &[OK],
        pauses: Some(2),
        ..RTSP
    },
    Row {
        name: "a failed outlet changes nothing else",
        pieces: &[OPTIONS, OPTIONS],
        joined: true,
        posts: &[1],
        posting: true,
        kinds: *b"RR--",
        sent: &[OK, OK],
        datagrams: Some(1),
        ..RTSP
    },
    Row {
        name: "a full service ends the connection",
        pieces: &[OPTIONS, OPTIONS],
        joined: true,
        room: 1,
        end: ConnEnd::Want,
        kinds: *b"R---",
        sent: &[OK],
        ..RTSP
    },
    Row {
        name: "what is pulled is sent until the session is gone",
        pulls: [BYTES, BYTES, Pulled::Gone, Pulled::Gone],
        kinds: *b"GPPP",
        sent: &[HEAD, OK, OK],
        ..HTTP
    },
    Row {
        name: "an end closes a session before a send fails",
        sends: &[2],
        passed: 4,
        pulls: [Pulled::Empty, BYTES, BYTES, BYTES],
        kinds: *b"GPC-",
        sent: &[HEAD],
        ..HTTP
    },
    Row {
        name: "a session is closed where what was pulled is not sent",
        sends: &[3],
        passed: 4,
        pulls: [BYTES; 4],
        end: ConnEnd::WriteFault,
        kinds: *b"GPPC",
        sent: &[HEAD, OK, b"RTSP"],
        ..HTTP
    },
    Row {
        name: "a refused GET has no session",
        starts: false,
        kinds: *b"G---",
        sent: &[BAD],
        ..HTTP
    },
];

// What serving a connection came to.
#[derive(Drop)]
struct Report {
    end: ConnEnd,
    service: Scripted,
    sent: Vec<u8>,
    datagrams: usize,
    pauses: u64,
}

fn conn_of(alloc: Global, row: &Row) -> Result<MemoryConn, Fail> {
    if !row.joined {
        return Ok(MemoryConn::make(alloc, row.pieces, &[], row.sends, row.passed)?);
    }
    let whole = joined(alloc, row.pieces)?;
    Ok(MemoryConn::make(alloc, &[&whole], &[], row.sends, row.passed)?)
}

// Serves a connection with the draws of the key: how it ended, and the pauses.
fn serve_with<R: Wait + Sync>(
    rt: &R,
    kind: DoorKind,
    service: &mut Scripted,
    conn: &mut MemoryConn,
    outlet: &mut MemoryOutlet,
    room: &mut Room,
) -> (ConnEnd, u64)
    requires free { outlet.old.held ≡ false }
{
    let mut pacer = MemoryPacer::new();
    let mut draws = Draws::make(&KEY, 1);
    let end = serve_connection(
        rt, service, kind, CLIENT, conn, outlet, &mut pacer, &mut draws, room,
    );
    (end, pacer.pauses())
}

fn serve<R: Wait + Sync>(rt: &R, alloc: Global, row: &Row) -> Result<Report, Fail> {
    let mut room = Room::make(alloc)?;
    let mut outlet = MemoryOutlet::make(alloc, row.posts)?;
    let mut conn = conn_of(alloc, row)?;
    let mut service = Scripted::new(row.starts, row.pulls, row.posting, row.room);
    let (end, pauses) = serve_with(
        rt,
        row.kind,
        &mut service,
        &mut conn,
        &mut outlet,
        &mut room,
    );
    Ok(Report {
        end,
        service,
        sent: Vec::from_slice(alloc, conn.sent())?,
        datagrams: outlet.count(),
        pauses,
    })
}

// Whether the first entries have these draws.
fn has_draws(service: &Scripted, draws: &mut Draws, count: usize) -> bool {
    for place in 0..count {
        if service.draw(place) != Some(draws.next()) {
            return false;
        }
    }
    true
}

// Whether serving a connection came to the numbers and the draws that its row gives.
fn has_numbers(row: &Row, report: &Report) -> bool {
    let mut draws = Draws::make(&KEY, 1);
    report.pauses == row.pauses.unwrap_or(report.pauses)
        && report.datagrams == row.datagrams.unwrap_or(report.datagrams)
        && has_draws(&report.service, &mut draws, row.draws)
}

// Whether serving a connection came to what its row says.
fn is_met(row: &Row, report: &Report) -> bool {
    report.end == row.end
        && report.service.kinds() == row.kinds
        && is_joined(&report.sent, row.sent)
        && has_numbers(row, report)
}

#[test]
fn connections_come_to_what_their_rows_say(rt: HostRuntime) -> Result<(), Fail> {
    for row in ROWS {
        let report = serve(&rt, rt.alloc(), row)?;
        let name = row.name;
        assert!(rt; is_met(row, &report), "{name}");
    }
    Ok(())
}

// What a worker came to, and the connections that it handed back, with what was sent on all of
// them.
#[derive(Drop)]
struct Shift {
    end: WorkerEnd,
    service: Scripted,
    pauses: u64,
    handed: Vec<(DoorKind, ConnEnd)>,
    sent: Vec<u8>,
}

// The connections that were handed back.
fn handed(alloc: Global, doors: &MemoryDoors) -> Result<Vec<(DoorKind, ConnEnd)>, Fail> {
    let mut all = Vec::new(alloc);
    for handed in doors.returned() {
        all.push((handed.kind, handed.end))?;
    }
    Ok(all)
}

// What was sent on the connections that were handed back, one after another.
fn sent(alloc: Global, doors: &MemoryDoors) -> Result<Vec<u8>, Fail> {
    let mut all = Vec::new(alloc);
    for handed in doors.returned() {
        all.extend_from_slice(handed.conn.sent())?;
    }
    Ok(all)
}

type Kit = WorkerKit<MemoryDoors, MemoryOutlet, MemoryPacer>;

fn outcome(alloc: Global, kit: &Kit, service: Scripted, end: WorkerEnd) -> Result<Shift, Fail> {
    let handed = handed(alloc, &kit.doors)?;
    let sent = sent(alloc, &kit.doors)?;
    Ok(Shift {
        end,
        service,
        pauses: kit.pacer.pauses(),
        handed,
        sent,
    })
}

fn work<R: Wait + Sync>(
    rt: &R,
    alloc: Global,
    doors: MemoryDoors,
    mut service: Scripted,
    number: u64,
) -> Result<Shift, Fail> {
    let mut room = Room::make(alloc)?;
    let mut kit = WorkerKit {
        doors,
        outlet: MemoryOutlet::make(alloc, &[])?,
        pacer: MemoryPacer::new(),
        key: KEY,
    };
    let end = run_worker(rt, &mut service, &mut kit, number, &mut room);
    outcome(alloc, &kit, service, end)
}

fn add(
    doors: &mut MemoryDoors,
    alloc: Global,
    kind: DoorKind,
    piece: &[u8],
    sends: &[u64],
) -> Result<(), Fail> {
    let conn = MemoryConn::make(alloc, &[piece], &[], sends, 0)?;
    doors.add(kind, CLIENT, conn)?;
    Ok(())
}

// Doors by which an RTSP and an HTTP connection come, whose fourth call fails.
fn failing_doors(alloc: Global) -> Result<MemoryDoors, Fail> {
    let mut doors = MemoryDoors::make(alloc, 0, &[2], &[4])?;
    add(&mut doors, alloc, DoorKind::Rtsp, OPTIONS, &[])?;
    add(&mut doors, alloc, DoorKind::Http, GET, &[1])?;
    Ok(doors)
}

fn work_at_failing_doors<R: Wait + Sync>(rt: &R, alloc: Global) -> Result<Shift, Fail> {
    let doors = failing_doors(alloc)?;
    let service = Scripted::new(true, [Pulled::Empty; 4], false, 4);
    work(rt, alloc, doors, service, 3)
}

#[test]
fn a_worker_serves_its_connections_until_its_doors_fail(rt: HostRuntime) -> Result<(), Fail> {
    let shift = work_at_failing_doors(&rt, rt.alloc())?;
    let wanted = [
        (DoorKind::Rtsp, ConnEnd::Done),
        (DoorKind::Http, ConnEnd::WriteFault),
    ];
    assert!(rt; shift.end == WorkerEnd::DoorsFault && shift.pauses == 1);
    assert!(rt; shift.handed.as_slice() == wanted.as_slice());
    assert_eq!(rt; shift.sent.as_slice(), OK);
    Ok(())
}

#[test]
fn a_worker_draws_for_each_message(rt: HostRuntime) -> Result<(), Fail> {
    let shift = work_at_failing_doors(&rt, rt.alloc())?;
    assert!(rt; shift.service.kinds() == *b"RGC-");
    assert!(rt; has_draws(&shift.service, &mut Draws::make(&KEY, 3), 2));
    Ok(())
}

// How a worker ends, and how many of three connections come back from doors that end behind two.
fn ends_behind_two<R: Wait + Sync>(
    rt: &R,
    alloc: Global,
    entries: u8,
) -> Result<(WorkerEnd, usize), Fail> {
    let mut doors = MemoryDoors::make(alloc, 2, &[], &[])?;
    for _ in 0..3u8 {
        add(&mut doors, alloc, DoorKind::Rtsp, OPTIONS, &[])?;
    }
    let service = Scripted::new(true, NO_PULLS, false, entries);
    let shift = work(rt, alloc, doors, service, 1)?;
    Ok((shift.end, shift.handed.len()))
}

#[test]
fn a_worker_ends_with_its_doors_or_its_service(rt: HostRuntime) -> Result<(), Fail> {
    for (entries, end) in [(4, WorkerEnd::Closed), (1, WorkerEnd::Want)] {
        let seen = ends_behind_two(&rt, rt.alloc(), entries)?;
        assert!(rt; seen == (end, 2), "with room for {entries}");
    }
    Ok(())
}

// The first words of the stream of the key 0, three a draw.
const FIRST_DRAWS: [Draw; 2] = [
    Draw {
        word: 0xade0_b876,
        ssrc: 0x903d_f1a0,
        first: 0x5d40,
    },
    Draw {
        word: 0x28bd_8653,
        ssrc: 0xb819_d2bd,
        first: 0x8da0,
    },
];

#[test]
fn draws_are_the_words_of_the_stream(rt: HostRuntime) {
    let mut draws = Draws::make(&[0; 32], 0);
    for draw in FIRST_DRAWS {
        assert_eq!(rt; draws.next(), draw);
    }
}
