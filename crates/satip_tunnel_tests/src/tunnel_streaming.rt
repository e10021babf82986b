//! A stream that goes down its connection as interleaved frames (RFC 2326, section 10.12) where
//! nothing comes in, or a piece that completes no message.
ghost use Rattle.satip_interleave.specs.Histories.{TunnelLegal};
ghost use Rattle.satip_turn.specs.Shown.{IsOf, Knows};

use crate::checks::{check, given};
use crate::connections::{SETUP_REPLY, serve};
use crate::setting::shared;
use satip_base::{Out, Put};
use satip_fixtures::packet_bytes;
use satip_fixtures::texts::{SETUP_INTERLEAVED, repeated};
use satip_interleave::{SharedTunnel, TunnelCaller, TunnelPass, TunnelRoom};
use satip_memory::MemoryConn;
use satip_plain::{Event, Service};
use satip_ts::Packet;
use satip_tunnel::TunnelEnd;
use satip_world::{Conn, Received};
use std::alloc::Global;
use std::process::Abort;
use std::sync::Wait;

const PLAY: &[u8] =
    b"PLAY rtsp://192.168.1.10/stream=1 RTSP/1.0\r\nCSeq: 2\r\nSession: 00000001ade0b876\r\n\r\n";

const PLAY_REPLY: &[u8] = b"RTSP/1.0 200 OK\r\n\
    CSeq: 2\r\n\
    Session: 00000001ade0b876\r\n\
    RTP-Info: url=rtsp://192.168.1.10/stream=1;seq=23872\r\n\r\n";

/// The head of the datagram of the first six packets: a frame of 1140 bytes on channel 0, and the
/// RTP header at 1040 milliseconds (RFC 3550, section 5.1) with the key's first draw: the SSRC
/// 903df1a0 and the number 23872.
const MEDIA_HEAD: &[u8] = b"$\x00\x04\x74\x80\x21\x5d\x40\x00\x01\x6d\xa0\x90\x3d\xf1\xa0";

/// A frame of 152 bytes on channel 1: a sender report, a source description and a description of
/// the stream (RFC 3550, section 6).
const REPORT: &[u8] =
    b"$\x01\x00\x98\x80\xc8\x00\x06\x90\x3d\xf1\xa0\x83\xaa\x7e\x81\x0a\x3d\x70\xa3\x00\x01\x6d\
    \xa0\x00\x00\x00\x01\x00\x00\x04\x68\x81\xca\x00\x05\x90\x3d\xf1\xa0\x01\x0c192.168.1.10\x00\
    \x00\x80\xcc\x00\x18\x90\x3d\xf1\xa0SES1\x00\x00\x00\x52ver=1.0;\
    src=1;tuner=1,240,1,15,11361.75,h,dvbs2,8psk,on,0.35,22000,23;pids=0,16,17\x00\x00";

/// A prefix of a request.
const HALF: &[u8] = b"OPTIONS * RTSP";

/// A frame of a client: a receiver report without blocks on channel 1 (RFC 3550, section 6.4.2).
const RECEIVER_REPORT: &[u8] = b"$\x01\x00\x08\x80\xc9\x00\x01\x00\x00\x00\x0a";

// What a connection is sent: the replies and the frames, so many of their first bytes, or so many
// bytes.
#[derive(Clone, Copy)]
enum Sent {
    All,
    Prefix(usize),
    Count(usize),
}

/// A connection: the pieces that it receives, and which of its sends fail. Before the receive of
/// this number these packets come, and a tick behind them if there is one. Then its end, what it is
/// sent, how many entries of its caller there are with those of the other, and how often it pauses.
#[derive(Clone, Copy)]
struct Row {
    name: &'static str,
    pieces: &'static [&'static [u8]],
    failing_sends: &'static [u64],
    receive: u32,
    packets: u32,
    tick: bool,
    end: TunnelEnd,
    sent: Sent,
    entries: u64,
    pauses: u64,
}

// Six packets and a tick come before the only receive that finds nothing.
const IDLE: Row = Row {
    name: "frames are sent where nothing comes in",
    pieces: &[SETUP_INTERLEAVED, PLAY, b""],
    failing_sends: &[],
    receive: 3,
    packets: 6,
    tick: true,
    end: TunnelEnd::Done,
    sent: Sent::All,
    entries: 16,
    pauses: 1,
};

const ROWS: &[Row] = &[
    IDLE,
    Row {
        name: "each receive that finds nothing drains",
        pieces: &[SETUP_INTERLEAVED, PLAY, b"", b""],
        receive: 4,
        entries: 17,
        pauses: 2,
        ..IDLE
    },
    // The frames come before a piece without a whole message, and are sent before a receive finds
    // nothing.
    Row {
        name: "a prefix of a message drains",
        pieces: &[SETUP_INTERLEAVED, PLAY, HALF],
        pauses: 0,
        ..IDLE
    },
    Row {
        name: "a report of the client drains",
        pieces: &[SETUP_INTERLEAVED, PLAY, RECEIVER_REPORT],
        pauses: 0,
        ..IDLE
    },
    Row {
        name: "a failed send of frames is a write fault",
        failing_sends: &[3],
        end: TunnelEnd::WriteFault,
        sent: Sent::Prefix(254),
        entries: 15,
        pauses: 0,
        ..IDLE
    },
];

// The lane has room for 393 datagrams of seven packets, each a frame of 1332 bytes. The connection
// is sent them all behind 244 bytes of replies, and gives its lane up.
const BROKEN: &[Row] = &[Row {
    name: "a broken lane ends its connection",
    packets: 2758,
    tick: false,
    end: TunnelEnd::Broken,
    sent: Sent::Count(523720),
    entries: 2775,
    pauses: 0,
    ..IDLE
}];

/// What comes before the receives of a connection: a tick before the second one, and packets before
/// the one of number `fed_at`, with a tick behind them if there is one.
#[derive(Clone, Copy)]
struct Plan {
    packet: Packet,
    fed_at: u32,
    packets: u32,
    tick: bool,
}

impl Plan {
    // Returns how many events come before a receive, by its number from 1.
    fn count_before(&self, receive: u32) -> u32 {
        if receive == 2 {
            return 1;
        }
        if receive == self.fed_at {
            return self.packets.saturating_add(u32::from(self.tick));
        }
        0
    }

    // Returns an event that comes before a receive, by its place from 0.
    fn event_before(&self, receive: u32, place: u32) -> Event {
        if receive == 2 {
            return Event::Tick { now: 1000 };
        }
        if place < self.packets {
            return Event::Packet {
                front: 1,
                tune: 1,
                packet: self.packet,
            };
        }
        Event::Tick { now: 1040 }
    }
}

/// A connection over memory. Before its receives a caller makes what the plan says.
#[derive(Drop)]
struct Fed<'a, R: Wait + Sync> {
    conn: MemoryConn,
    caller: TunnelCaller<'a, R>,
    plan: Plan,
    out: Out,
    receives: u32,
}

impl<'a, R: Wait + Sync> Conn for Fed<'a, R> {
    ghost tells = { Unit {0} };

    ghost line = { λ f. f.conn };

    fn receive(&mut self, buf: &mut [u8]) -> Received {
        let receive = self.receives.saturating_add(1);
        self.receives = receive;
        let plan = self.plan;
        let caller = &mut self.caller;
        let out = &mut self.out;
        for place in 0..plan.count_before(receive) {
            let _answer = caller.call(&plan.event_before(receive, place), out);
        }
        self.conn.receive(buf)
    }

    fn send(&mut self, bytes: &[u8]) -> Put {
        self.conn.send(bytes)
    }
}

// Makes a connection that sets up and plays, which is fed by this caller. A send that fails passes
// ten bytes.
fn fed_by<'a, R: Wait + Sync>(
    rt: &impl Abort,
    alloc: Global,
    caller: TunnelCaller<'a, R>,
    row: &Row,
) -> Fed<'a, R> {
    let packet = Packet::of(&packet_bytes(16)).expect(rt, "packet");
    let out = Out::make(alloc).expect(rt, "out of memory");
    let conn = MemoryConn::make(alloc, row.pieces, &[], row.failing_sends, 10).expect(
        rt,
        "out of memory",
    );
    let plan = Plan {
        packet,
        fed_at: row.receive,
        packets: row.packets,
        tick: row.tick,
    };
    Fed {
        conn,
        caller,
        plan,
        out,
        receives: 0,
    }
}

// Returns the replies and the frames, one behind the other.
fn all_bytes(rt: &impl Abort, alloc: Global) -> Vec<u8> {
    let packet = packet_bytes(16);
    let parts: &[(&[u8], usize)] = &[
        (SETUP_REPLY, 1),
        (PLAY_REPLY, 1),
        (MEDIA_HEAD, 1),
        (packet.as_slice(), 6),
        (REPORT, 1),
    ];
    given(rt, repeated(alloc, parts))
}

// Asserts what a connection was sent, where these are the replies and the frames.
fn check_sent<'a>(rt: &impl Abort, name: &str, sent: &'a [u8], all: &'a [u8], wanted: Sent) {
    match wanted {
        Sent::All => check(rt, name, sent, all),
        Sent::Prefix(count) => check(rt, name, sent, all.split_at(count.min(all.len())).0),
        Sent::Count(count) => check(rt, name, sent.len(), count),
    }
}

// Serves a connection, and asserts its end, its entries and its pauses.
fn check_end<R: Wait + Sync + Abort>(
    rt: &R,
    alloc: Global,
    caller: &mut TunnelCaller<R>,
    conn: &mut Fed<R>,
    row: &Row,
) {
    let mut room = TunnelRoom::make(alloc).expect(rt, "out of memory");
    let (end, pauses) = serve(caller, conn, &mut room);
    let got = (end, caller.pass.place(), pauses);
    check(rt, row.name, got, (row.end, row.entries, row.pauses));
}

// Serves the connection of one caller, which another caller feeds, and asserts what comes of it.
fn check_stream<R: Wait + Sync + Abort>(
    rt: &R,
    alloc: Global,
    server: &SharedTunnel,
    pass: TunnelPass,
    row: &Row,
    all: &[u8],
)
    requires of { IsOf pass server.now }
    requires knows { Knows (TunnelLegal server.now.setting) pass }
{
    let mut pass = pass;
    let other = server.split(&mut pass);
    let feeder = TunnelCaller {
        rt,
        server,
        pass: other,
    };
    let mut conn = fed_by(rt, alloc, feeder, row);
    let mut caller = TunnelCaller { rt, server, pass };
    check_end(rt, alloc, &mut caller, &mut conn, row);
    check_sent(rt, row.name, conn.conn.sent(), all, row.sent);
}

// Serves the connection of a row by a new server.
fn check_row<R: Wait + Sync + Abort>(rt: &R, alloc: Global, row: &Row, all: &[u8]) {
    let (server, pass) = shared(rt, alloc);
    check_stream(rt, alloc, &server, pass, row, all);
}

fn check_rows<R: Wait + Sync + Abort>(rt: &R, alloc: Global, rows: &[Row]) {
    let all = all_bytes(rt, alloc);
    for row in rows {
        check_row(rt, alloc, row, &all);
    }
}

#[test]
fn streams_go_down_their_connections(rt: HostRuntime) {
    check_rows(&rt, rt.alloc(), ROWS);
}

#[test]
fn broken_lane_ends_its_connection(rt: HostRuntime) {
    check_rows(&rt, rt.alloc(), BROKEN);
}
