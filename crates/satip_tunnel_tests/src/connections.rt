//! Connections over memory: what they are sent, how they end, and how many entries they make.
ghost use Rattle.satip_interleave.specs.Histories.{TunnelLegal};
ghost use Rattle.satip_turn.specs.Shown.{IsOf, Knows};

use crate::checks::check;
use crate::setting::shared;
use satip_fixtures::texts::{CLOSING, OPTIONS, OPTIONS_REPLY, SETUP, SETUP_INTERLEAVED};
use satip_interleave::{SharedTunnel, TunnelCaller, TunnelEvent, TunnelPass, TunnelRoom};
use satip_memory::{MemoryConn, MemoryPacer};
use satip_tunnel::{TunnelEnd, serve_tunnel};
use satip_worker::Draws;
use satip_world::Conn;
use std::alloc::Global;
use std::process::Abort;
use std::sync::Wait;

/// A report of a client on channel 1 (RFC 2326, section 10.12), and an OPTIONS behind it.
const REPORT_AND_OPTIONS: &[u8] =
    b"$\x01\x00\x04\x00\x00\x00\x00OPTIONS * RTSP/1.0\r\nCSeq: 1\r\n\r\n";

/// The reply to the SETUP: its session was made by the key's first draw, and its transport is told
/// in channels.
pub const SETUP_REPLY: &[u8] = b"RTSP/1.0 200 OK\r\n\
    CSeq: 1\r\n\
    Session: 00000001ade0b876;timeout=60\r\n\
    Transport: RTP/AVP/TCP;unicast;interleaved=0-1\r\n\
    com.ses.streamID: 1\r\n\r\n";

const REFUSED: &[u8] = b"RTSP/1.0 461 Unsupported Transport\r\nCSeq: 1\r\n\r\n";

/// The key of what is drawn. Its first draw has the word ade0b876 (the first word of the ChaCha20
/// stream of this key).
pub const KEY: [u8; 32] = [0; 32];

/// A connection: the pieces that come in, which receives and sends fail, how it ends, what it is
/// sent, and how many entries it makes.
#[derive(Clone, Copy)]
struct Row {
    name: &'static str,
    pieces: &'static [&'static [u8]],
    failing_receives: &'static [u64],
    failing_sends: &'static [u64],
    end: TunnelEnd,
    sent: &'static [u8],
    entries: u64,
}

// A connection that ends well, on which nothing comes in.
const DONE: Row = Row {
    name: "",
    pieces: &[],
    failing_receives: &[],
    failing_sends: &[],
    end: TunnelEnd::Done,
    sent: b"",
    entries: 2,
};

// Connections that end well, and such whose receive or send fails.
const ROWS: &[Row] = &[
    Row {
        name: "a SETUP over UDP is refused",
        pieces: &[SETUP],
        sent: REFUSED,
        entries: 4,
        ..DONE
    },
    Row {
        name: "a SETUP over the connection is accepted",
        pieces: &[SETUP_INTERLEAVED],
        sent: SETUP_REPLY,
        entries: 4,
        ..DONE
    },
    Row {
        name: "a request is answered after a receive that finds nothing",
        pieces: &[b"", OPTIONS],
        sent: OPTIONS_REPLY,
        entries: 5,
        ..DONE
    },
    Row {
        name: "a prefix of a request is not answered",
        pieces: &[b"OPTIONS * RTSP"],
        entries: 3,
        ..DONE
    },
    Row {
        name: "a closing reply ends the connection",
        pieces: &[b"a\r\n\r\n", OPTIONS],
        sent: CLOSING,
        entries: 4,
        ..DONE
    },
    Row {
        name: "a send fails",
        pieces: &[OPTIONS],
        failing_sends: &[1],
        end: TunnelEnd::WriteFault,
        sent: b"RTSP/1.0 2",
        entries: 3,
        ..DONE
    },
    Row {
        name: "a receive fails",
        pieces: &[OPTIONS, OPTIONS],
        failing_receives: &[2],
        end: TunnelEnd::ReadFault,
        sent: OPTIONS_REPLY,
        entries: 4,
        ..DONE
    },
];

// A connection with the text of the report and the OPTIONS in two pieces. The lane is drained after
// the first piece, and after the reply.
const CUT: &Row = &Row {
    name: "the report and the OPTIONS are cut",
    sent: OPTIONS_REPLY,
    entries: 5,
    ..DONE
};

// A connection that comes while all lanes are taken.
const FULL: &[Row] = &[Row {
    name: "all lanes are taken",
    pieces: &[OPTIONS],
    end: TunnelEnd::Full,
    entries: 1,
    ..DONE
}];

/// Serves a connection. Returns how it ended, and how often it paused.
pub fn serve<R: Wait + Sync, C: Conn>(
    caller: &mut TunnelCaller<R>,
    conn: &mut C,
    room: &mut TunnelRoom,
) -> (TunnelEnd, u64) {
    let mut pacer = MemoryPacer::new();
    let mut draws = Draws::make(&KEY, 0);
    let end = serve_tunnel(caller, conn, &mut pacer, &mut draws, room);
    (end, pacer.pauses())
}

// Serves a connection that receives these pieces, cut at this byte or 0. Asserts that it comes to
// what its row says. A send that fails passes ten bytes.
fn check_conn<R: Wait + Sync + Abort>(
    rt: &R,
    alloc: Global,
    caller: &mut TunnelCaller<R>,
    room: &mut TunnelRoom,
    row: &Row,
    pieces: &[&[u8]],
    cut: usize,
) {
    let mut conn = MemoryConn::make(
        alloc,
        pieces,
        row.failing_receives,
        row.failing_sends,
        10,
    ).expect(rt, "out of memory");
    let before = caller.pass.place();
    let (end, _pauses) = serve(caller, &mut conn, room);
    let entries = caller.pass.place().saturating_sub(before);
    let got = (cut, end, entries, conn.sent());
    check(rt, row.name, got, (cut, row.end, row.entries, row.sent));
}

// Serves connections with the text of the report and the OPTIONS, cut at every byte.
fn serve_cut<R: Wait + Sync + Abort>(
    rt: &R,
    alloc: Global,
    caller: &mut TunnelCaller<R>,
    room: &mut TunnelRoom,
    text: &[u8],
) {
    for cut in 1..text.len() {
        let (front, back) = text.split_at(cut);
        check_conn(rt, alloc, caller, room, CUT, &[front, back], cut);
    }
}

fn serve_rows<R: Wait + Sync + Abort>(
    rt: &R,
    alloc: Global,
    caller: &mut TunnelCaller<R>,
    room: &mut TunnelRoom,
    rows: &[Row],
) {
    for row in rows {
        check_conn(rt, alloc, caller, room, row, row.pieces, 0);
    }
}

// Takes all lanes.
fn take_lanes<R: Wait + Sync>(rt: &R, caller: &mut TunnelCaller<R>, room: &mut TunnelRoom) {
    for _lane in 0..64 {
        let _entered = caller
            .server
            .call(rt, &mut caller.pass, &TunnelEvent::Enter, &mut room.out);
    }
}

// Serves all of them, one after another, by one caller.
fn serve_all<R: Wait + Sync + Abort>(rt: &R, alloc: Global, server: &SharedTunnel, pass: TunnelPass)
    requires of { IsOf pass server.now }
    requires knows { Knows (TunnelLegal server.now.setting) pass }
{
    let mut room = TunnelRoom::make(alloc).expect(rt, "out of memory");
    let mut caller = TunnelCaller { rt, server, pass };
    serve_cut(rt, alloc, &mut caller, &mut room, REPORT_AND_OPTIONS);
    serve_rows(rt, alloc, &mut caller, &mut room, ROWS);
    take_lanes(rt, &mut caller, &mut room);
    serve_rows(rt, alloc, &mut caller, &mut room, FULL);
}

#[test]
fn connections_are_served(rt: HostRuntime) {
    let (server, pass) = shared(&rt, rt.alloc());
    serve_all(&rt, rt.alloc(), &server, pass);
}
