//! Lines whose digits were worked out by hand from the rules of records.

ghost use Rattle.std.specs.Prelude.{◌<◌};

use crate::checks::{check, given};
use satip_base::{Address, Draw, Out, Peer, Ports, SessionId};
use satip_entry_reader::Reading;
use satip_entry_writer::{LineRoom, write_entry, write_start};
use satip_fixtures::texts::joined;
use satip_http::{HttpRefusal, HttpRequest};
use satip_pids::PidList;
use satip_plain::{Answer, Beat, Event, GetAnswer, Pulled, Replied, Work};
use satip_query::{PidsGiven, Query, QueryFault};
use satip_rtsp::{Method, Request, SessionName};
use satip_tune::{Change, Fec, Key, Modulation, Pol, RollOff, System};
use std::alloc::Global;
use std::process::Abort;

#[test]
fn a_start_is_one_line(rt: HostRuntime) {
    let mut line = LineRoom::make(rt.alloc()).expect(&rt, "out of memory");
    write_start(0, &mut line);
    check(&rt, "0", line.bytes(), b"start 0\n".as_slice());
    write_start(u64::MAX, &mut line);
    let last = b"start 18446744073709551615\n".as_slice();
    check(&rt, "the last moment", line.bytes(), last);
}

// An entry at a place, of a caller, and the texts of its line.
#[derive(Clone, Copy)]
struct Row<'a> {
    name: &'a str,
    place: u64,
    caller: u64,
    event: &'a Event,
    answer: &'a Answer,
    texts: &'a [&'a [u8]],
}

// Asserts that the line of an entry is as its row says.
fn check_line(rt: &impl Abort, alloc: Global, out: &Out, row: &Row) {
    let mut line = LineRoom::make(alloc).expect(rt, "out of memory");
    write_entry(row.place, row.caller, row.event, row.answer, out, &mut line);
    let wanted = given(rt, joined(alloc, row.texts));
    check(rt, row.name, line.bytes(), wanted.as_slice());
}

#[test]
fn a_stop_and_a_tick_are_short_lines(rt: HostRuntime) {
    let out = Out::make(rt.alloc()).expect(&rt, "out of memory");
    let stop = Row {
        name: "stop",
        place: 0,
        caller: 0,
        event: &Event::Stop,
        answer: &Answer::Beat(Beat::Stopping),
        texts: &[b"entry 0 0 080201000000000000\n"],
    };
    let tick = Row {
        name: "tick",
        place: 0,
        caller: 0,
        event: &Event::Tick { now: 10 },
        answer: &Answer::Beat(Beat::Going),
        texts: &[b"entry 0 0 02000000000000000a0200000000000000\n"],
    };
    let later = Row {
        name: "later stop",
        place: 2,
        caller: 1,
        texts: &[b"entry 2 1 080201000000000000\n"],
        ..stop
    };
    check_line(&rt, rt.alloc(), &out, &stop);
    check_line(&rt, rt.alloc(), &out, &tick);
    check_line(&rt, rt.alloc(), &out, &later);
}

fn two_pids(first: u16, second: u16) -> PidList
    requires first { first < 8192 }
    requires second { second < 8192 }
{
    let mut pids = PidList::new();
    let _ = pids.push(first);
    let _ = pids.push(second);
    pids
}

fn setup_query() -> Query {
    Query {
        change: Change {
            fe: None,
            src: Some(1),
            freq: Some(11494000),
            pol: Some(Pol::L),
            ro: Some(RollOff::R20),
            msys: Some(System::Dvbs2),
            mtype: Some(Modulation::Psk8),
            plts: Some(true),
            sr: Some(22000),
            fec: Some(Fec::F910),
        },
        pids: PidsGiven::List(two_pids(0, 16)),
        addpids: Some(two_pids(8191, 8191)),
        delpids: None,
    }
}

// A SETUP of the stream 7 in a session.
fn setup_event() -> Event {
    Event::Request {
        peer: Peer { ip: 0x0a00_0002 },
        draw: Draw {
            word: 0x0102_0304,
            ssrc: 0x0506_0708,
            first: 0x090a,
        },
        request: Request {
            cseq: Some(2),
            refusal: None,
            method: Method::Setup,
            stream: Some(7),
            session: SessionName::Named(SessionId { count: 3, word: 4 }),
            query: setup_query(),
            ports: Some(Ports {
                rtp: 5000,
                rtcp: 5001,
            }),
        },
    }
}

// Returns the reply "ok", and a datagram and the beginning of another.
fn two_datagrams(rt: &impl Abort, alloc: Global) -> Out {
    let to = Address {
        ip: 0x0a00_0002,
        port: 5000,
    };
    let mut out = Out::make(alloc).expect(rt, "out of memory");
    out.write(b"ok");
    out.begin(to);
    out.extend(b"abc");
    out.begin(to);
    out
}

const REQUEST_LINE: &[&[u8]] = &[
    b"entry 17 3 ",
    // A request, its peer and its draw; CSeq 2, no refusal, SETUP, stream 7 and a session.
    b"000a0000020102030405060708090a",
    b"01000000020002010007010000000300000004",
    // No front end; position 1, 11494000 kHz, circular left, 0.20, DVB-S2, 8PSK.
    b"0001010100af62700102010201010101",
    // Pilots, 22000 kSymb/s and 9/10; the lists of PIDs and the ports.
    b"010101000055f00108030002000000100100021fff1fff000113881389",
    // Status 200, not closing; the reply and the datagrams.
    b"0000c800000000026f6b",
    b"00020a0000021388000000036162630a000002138800000000\n",
];

#[test]
fn a_request_is_written_field_by_field(rt: HostRuntime) {
    let out = two_datagrams(&rt, rt.alloc());
    let answer = Answer::Replied(Replied {
        status: 200,
        closing: false,
    });
    let row = Row {
        name: "request",
        place: 17,
        caller: 3,
        event: &setup_event(),
        answer: &answer,
        texts: REQUEST_LINE,
    };
    check_line(&rt, rt.alloc(), &out, &row);
}

// A GET that is refused since its PIDs are out of range.
fn refused_get() -> Event {
    Event::Get {
        peer: Peer { ip: 1 },
        draw: Draw {
            word: 0,
            ssrc: 0,
            first: 0,
        },
        request: HttpRequest {
            refusal: Some(HttpRefusal::Query(QueryFault::Range(Key::Pids))),
            query: Query::new(),
        },
    }
}

#[test]
fn a_refused_get_is_written(rt: HostRuntime) {
    let out = Out::make(rt.alloc()).expect(&rt, "out of memory");
    let refused = Row {
        name: "refused get",
        place: 1,
        caller: 2,
        event: &refused_get(),
        answer: &Answer::Get(GetAnswer::Refused(400)),
        texts: &[
            b"entry 1 2 010000000100000000000000000000",
            b"0106010a00000000000000000000000000010101900000000000",
            b"00\n",
        ],
    };
    check_line(&rt, rt.alloc(), &out, &refused);
}

#[test]
fn pulls_and_asks_are_written(rt: HostRuntime) {
    let out = Out::make(rt.alloc()).expect(&rt, "out of memory");
    let session = SessionId {
        count: 1,
        word: 0xdead_beef,
    };
    let pulled = Row {
        name: "pull",
        place: 5,
        caller: 6,
        event: &Event::Pull { session },
        answer: &Answer::Pulled(Pulled::Bytes(1316)),
        texts: &[b"entry 5 6 0600000001deadbeef04000000000000000524000000000000\n"],
    };
    let asked = Row {
        name: "ask",
        place: 7,
        caller: 8,
        event: &Event::Ask { front: 2 },
        answer: &Answer::Work(Work::Tune { mux: 3, tune: 9 }),
        texts: &[b"entry 7 8 050002030000030000000000000009000000000000\n"],
    };
    check_line(&rt, rt.alloc(), &out, &pulled);
    check_line(&rt, rt.alloc(), &out, &asked);
}

#[test]
fn parts_are_read_from_the_front(rt: HostRuntime) {
    let mut reading = Reading::new(b"\x01\x01\x02\x00\x00\x00\x07\x00\x00\x00\x08\x01\x00\x02");
    let numbers = (reading.read_option_u16(), reading.read_id());
    let words = (reading.read_bool(), reading.read_option_pol());
    let session = SessionId { count: 7, word: 8 };
    check(
        &rt,
        "parts",
        (numbers, words, reading.read_bool()),
        (
            (Some(Some(258)), Some(session)),
            (Some(true), Some(None)),
            None,
        ),
    );
}

#[test]
fn what_is_no_part_is_not_read(rt: HostRuntime) {
    let number = Reading::new(b"\x01\x02").read_u32();
    let other = Reading::new(b"\x09").read_fec();
    let last = Reading::new(b"\x08").read_fec();
    check(
        &rt,
        "a short number, a 9 and an 8",
        (number, other, last),
        (None, None, Some(Fec::F910)),
    );
}

#[test]
fn answers_are_read_from_the_front(rt: HostRuntime) {
    let mut reading = Reading::new(
        b"\x02\x01\x03\x00\x00\x03\x00\x00\x00\x00\x00\x00\x00\x09\x00\x00\xc8\x01\x06",
    );
    let replied = Replied {
        status: 200,
        closing: true,
    };
    let first = (reading.read_answer(), reading.read_answer());
    let last = (reading.read_answer(), reading.read_answer());
    let beat = Answer::Beat(Beat::Stopping);
    let work = Answer::Work(Work::Tune { mux: 3, tune: 9 });
    check(
        &rt,
        "answers",
        (first, last),
        (
            (Some(beat), Some(work)),
            (Some(Answer::Replied(replied)), None),
        ),
    );
}
