//! A small server, asked over RTSP.

use crate::checks::check;
use crate::given::{output, packet};
use satip_base::{Out, SessionId};
use satip_core::Server;
use satip_fixtures::{CLIENT, DRAW, FIRST_MUX, PORTS, config_with};
use satip_plain::{Answer, Beat, Event, Replied, Work};
use satip_query::{Query, read};
use satip_rtsp::{Method, Request, SessionName};
use satip_ts::Packet;
use std::alloc::Global;
use std::process::Abort;

const FIRST: SessionId = SessionId { count: 1, word: 10 };

// Creates a server with two front ends and one multiplex, at 1000 milliseconds.
fn server(rt: &impl Abort, alloc: Global) -> Server {
    let Ok(config) = config_with(alloc, 2, &[FIRST_MUX]) else {
        panic!(rt; "out of memory");
    };
    Server::make(alloc, config, 1000).expect(rt, "out of memory")
}

// Returns a request of this method in the first session.
fn request(method: Method) -> Request {
    Request {
        cseq: Some(2),
        refusal: None,
        method,
        stream: Some(1),
        session: SessionName::Named(FIRST),
        query: Query::new(),
        ports: None,
    }
}

const FIRST_QUERY: &[u8] = b"src=1&freq=11361.75&pol=h&msys=dvbs2&sr=22000&pids=0,16";

// Returns a query for the multiplex.
fn first_query(rt: &impl Abort) -> Query {
    let mut query = Query::new();
    read(FIRST_QUERY, &mut query).expect(rt, "query");
    query
}

// Returns a SETUP of no session, which creates the first stream.
fn setup(query: Query) -> Request {
    Request {
        method: Method::Setup,
        stream: None,
        session: SessionName::Absent,
        query,
        ports: Some(PORTS),
        ..request(Method::Setup)
    }
}

// Makes a request, and asserts the status of its reply.
fn ask(
    rt: &impl Abort,
    server: &mut Server,
    out: &mut Out,
    name: &str,
    request: &Request,
    status: u16,
) {
    let replied = server.request(CLIENT, DRAW, request, out);
    check(rt, name, replied.status, status);
}

// Makes a request, and asserts that its reply is this one of status 200.
fn ask_well(
    rt: &impl Abort,
    server: &mut Server,
    out: &mut Out,
    name: &str,
    request: &Request,
    reply: &[u8],
) {
    ask(rt, server, out, name, request, 200);
    check(rt, name, out.reply(), reply);
}

// The name of a packet, its tune number, and how many datagrams leave after it.
type PacketRow = (&'static str, u64, usize);

// Gives packets, and asserts how many datagrams leave after each.
fn give_each(
    rt: &impl Abort,
    server: &mut Server,
    out: &mut Out,
    packet: &Packet,
    rows: &[PacketRow],
) {
    for (name, tune, datagrams) in rows {
        let _work = server.packet(1, *tune, packet, out);
        check(rt, name, out.count(), *datagrams);
    }
}

// Makes a TEARDOWN of the first session as an event, and asserts its answer.
fn tear_down(rt: &impl Abort, server: &mut Server, out: &mut Out) {
    let event = Event::Request {
        peer: CLIENT,
        draw: DRAW,
        request: request(Method::Teardown),
    };
    let ok = Answer::Replied(Replied {
        status: 200,
        closing: false,
    });
    check(rt, "TEARDOWN", server.event(&event, out), ok);
}

const SETUP_REPLY: &[u8] = b"RTSP/1.0 200 OK\r\n\
    CSeq: 2\r\n\
    Session: 000000010000000a;timeout=60\r\n\
    Transport: RTP/AVP;unicast;client_port=1400-1401\r\n\
    com.ses.streamID: 1\r\n\r\n";

const PLAY_REPLY: &[u8] = b"RTSP/1.0 200 OK\r\n\
    CSeq: 2\r\n\
    Session: 000000010000000a\r\n\
    RTP-Info: url=rtsp://192.168.1.10/stream=1;seq=65535\r\n\r\n";

const TUNE: Work = Work::Tune { mux: 1, tune: 1 };

// Creates the first stream, whose front end's pump is told to tune, and plays it.
fn set_up_and_play(rt: &impl Abort, server: &mut Server, out: &mut Out) {
    let setup = setup(first_query(rt));
    ask_well(rt, server, out, "SETUP", &setup, SETUP_REPLY);
    check(rt, "work", server.ask(1, out), TUNE);
    let play = request(Method::Play);
    ask_well(rt, server, out, "PLAY", &play, PLAY_REPLY);
}

// A datagram leaves after the seventh packet of the tune number.
const SEVEN: &[PacketRow] = &[
    ("first", 1, 0),
    ("second", 1, 0),
    ("third", 1, 0),
    ("fourth", 1, 0),
    ("fifth", 1, 0),
    ("sixth", 1, 0),
    ("seventh", 1, 1),
    ("of another tune number", 2, 0),
];

// Ends the recording, and then the session by its TEARDOWN, after which none has its id.
fn end_all(rt: &impl Abort, server: &mut Server, out: &mut Out) {
    let work = server.ended(1, 1, out);
    check(rt, "work after the end", work, Work::Nothing);
    tear_down(rt, server, out);
    let options = request(Method::Options);
    ask(rt, server, out, "OPTIONS", &options, 454);
}

#[test]
fn seven_packets_are_a_datagram(rt: HostRuntime) {
    let packet = packet(&rt, 16);
    let mut out = output(&rt, rt.alloc());
    let mut server = server(&rt, rt.alloc());
    set_up_and_play(&rt, &mut server, &mut out);
    give_each(&rt, &mut server, &mut out, &packet, SEVEN);
    end_all(&rt, &mut server, &mut out);
}

// Ticks at this moment, makes a DESCRIBE of no session, and asserts the status of its reply.
fn describe_at(
    rt: &impl Abort,
    server: &mut Server,
    out: &mut Out,
    name: &str,
    now: u64,
    status: u16,
) {
    let describe = Request {
        session: SessionName::Absent,
        ..request(Method::Describe)
    };
    let _beat = server.tick(now, out);
    ask(rt, server, out, name, &describe, status);
}

// Stops, and asserts that a front end's pump is told to stop.
fn check_stop(rt: &impl Abort, server: &mut Server, out: &mut Out) {
    check(rt, "stop", server.stop(out), Beat::Stopping);
    let work = server.ask(1, out);
    check(rt, "work after the stop", work, Work::Stopping);
}

const NOT_FOUND: &[u8] = b"RTSP/1.0 404 Not Found\r\nCSeq: 2\r\n\r\n";

#[test]
fn a_session_that_is_not_heard_of_ends(rt: HostRuntime) {
    let mut out = output(&rt, rt.alloc());
    let mut server = server(&rt, rt.alloc());
    let setup = setup(Query::new());
    ask(&rt, &mut server, &mut out, "SETUP", &setup, 200);
    describe_at(&rt, &mut server, &mut out, "in time", 60999, 200);
    describe_at(&rt, &mut server, &mut out, "too late", 61000, 404);
    check(&rt, "too late", out.reply(), NOT_FOUND);
    check_stop(&rt, &mut server, &mut out);
}

// A name, the stream that is described, if it is one alone, and the beginning and the length of the
// reply. The lines of the server have 60 bytes, those of an untuned stream 129 or 130.
type DescriptionRow = (&'static str, Option<u16>, &'static [u8], usize);

const DESCRIPTIONS: &[DescriptionRow] = &[
    (
        "all streams",
        None,
        b"RTSP/1.0 200 OK\r\n\
        CSeq: 2\r\n\
        Content-Type: application/sdp\r\n\
        Content-Base: rtsp://192.168.1.10/\r\n\
        Content-Length: 8371\r\n\r\n\
        v=0\r\n",
        117 + 60 + 9 * 129 + 55 * 130,
    ),
    (
        "the last stream",
        Some(64),
        b"RTSP/1.0 200 OK\r\n\
        CSeq: 2\r\n\
        Content-Type: application/sdp\r\n\
        Content-Base: rtsp://192.168.1.10/\r\n\
        Content-Length: 190\r\n\r\n\
        v=0\r\n",
        116 + 60 + 130,
    ),
];

#[test]
fn sixty_four_streams_are_described(rt: HostRuntime) {
    let mut out = output(&rt, rt.alloc());
    let mut server = server(&rt, rt.alloc());
    let setup = setup(Query::new());
    for _stream in 0..64 {
        ask(&rt, &mut server, &mut out, "SETUP", &setup, 200);
    }
    for (name, stream, beginning, bytes) in DESCRIPTIONS {
        let describe = Request {
            stream: *stream,
            session: SessionName::Absent,
            ..request(Method::Describe)
        };
        ask(&rt, &mut server, &mut out, name, &describe, 200);
        check(&rt, name, out.reply().starts_with(beginning), true);
        check(&rt, name, out.reply().len(), *bytes);
    }
}
