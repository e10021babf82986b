//! Numbers, addresses, texts, and what the server writes to, each public function once.

use crate::checks::check;
use satip_base::{
    Address, Out, Put, ReadSource, SessionId, Sink, Source, Taken, WriteSink, read_ip, read_number,
};
use std::process::Abort;

const NUMBERS: &[(&str, u64, Option<u64>)] = &[
    ("0070", 70, Some(70)),
    ("71", 70, None),
    ("18446744073709551615", u64::MAX, Some(u64::MAX)),
    ("18446744073709551616", u64::MAX, None),
    ("000000000000000000001", u64::MAX, None),
    ("", 9, None),
    ("+1", 9, None),
];

#[test]
fn numbers_have_one_to_twenty_digits(rt: HostRuntime) {
    for (text, max, number) in NUMBERS {
        check(&rt, text, &read_number(text.as_bytes(), *max), number);
    }
}

const ADDRESSES: &[(&str, Option<u32>)] = &[
    ("127.0.0.1", Some(0x7f00_0001)),
    ("192.168.001.254", Some(0xc0a8_01fe)),
    ("256.0.0.1", None),
    ("1.2.3", None),
    ("1.2.3.4.5", None),
    ("1..3.4", None),
    ("0001.2.3.4", None),
];

#[test]
fn addresses_have_four_numbers(rt: HostRuntime) {
    for (text, ip) in ADDRESSES {
        check(&rt, text, &read_ip(text.as_bytes()), ip);
    }
}

const ID: SessionId = SessionId {
    count: 1,
    word: 0xdead_beef,
};

const IDS: &[(&str, Option<SessionId>)] = &[
    ("00000001deadbeef", Some(ID)),
    ("00000001DEADBEEF", None),
    ("1deadbeef", None),
];

#[test]
fn session_ids_are_sixteen_lower_case_digits(rt: HostRuntime) {
    assert!(rt; ID.text() == *b"00000001deadbeef");
    for (text, read) in IDS {
        check(&rt, text, &SessionId::read(text.as_bytes()), read);
    }
}

const TO: Address = Address {
    ip: 0x7f00_0001,
    port: 5000,
};

// What is written to an output that is cleared before.
#[derive(Clone, Copy)]
enum Written {
    /// A reply of a text, a number and an address, with a datagram beside it.
    Reply,
    /// A datagram that is extended, and an empty one, beside a reply.
    Extended,
    /// A datagram that is appended behind two others.
    Appended,
    /// Nothing, behind a reply and a datagram that are cleared.
    Cleared,
    /// An id.
    Id,
}

#[tactic(auto, using(satip_base::proofs::NumberLemmas::digit_bounds, satip_base::proofs::TextLemmas::text_bounds))]
fn write_reply(out: &mut Out) {
    out.clear();
    out.write(b"CSeq: ");
    out.write_number(7);
    out.write(b" ");
    out.write_address(0xc0a8_0102);
    out.begin(TO);
    out.extend(b"abc");
}

fn write_extended(out: &mut Out) {
    out.clear();
    out.write(b"CSeq: ");
    out.begin(TO);
    out.extend(b"abc");
    out.extend(b"def");
    out.begin(TO);
}

fn write_appended(out: &mut Out) {
    out.clear();
    out.begin(TO);
    out.extend(b"abcdef");
    out.begin(TO);
    out.append(TO, b"gh");
}

fn write_and_clear(out: &mut Out) {
    out.clear();
    out.write(b"CSeq: ");
    out.append(TO, b"gh");
    out.clear();
}

#[tactic(auto, using(satip_base::proofs::TextLemmas::text_bounds))]
fn write_id(out: &mut Out) {
    out.clear();
    out.write_id(SessionId { count: 2, word: 3 });
}

fn write(out: &mut Out, written: Written) {
    match written {
        Written::Reply => write_reply(out),
        Written::Extended => write_extended(out),
        Written::Appended => write_appended(out),
        Written::Cleared => write_and_clear(out),
        Written::Id => write_id(out),
    }
}

// What an output shows: its reply, its number of datagrams and their room, and the datagrams at
// two places.
#[derive(Clone, Copy)]
struct Shown {
    written: Written,
    reply: &'static [u8],
    count: usize,
    room: usize,
    first: Option<&'static [u8]>,
    third: Option<&'static [u8]>,
}

const SHOWN: &[Shown] = &[
    Shown {
        written: Written::Reply,
        reply: b"CSeq: 7 192.168.1.2",
        count: 1,
        room: 262141,
        first: Some(b"abc"),
        third: None,
    },
    Shown {
        written: Written::Extended,
        reply: b"CSeq: ",
        count: 2,
        room: 262138,
        first: Some(b"abcdef"),
        third: None,
    },
    Shown {
        written: Written::Appended,
        reply: b"",
        count: 3,
        room: 262136,
        first: Some(b"abcdef"),
        third: Some(b"gh"),
    },
    Shown {
        written: Written::Cleared,
        reply: b"",
        count: 0,
        room: 262144,
        first: None,
        third: None,
    },
    Shown {
        written: Written::Id,
        reply: b"0000000200000003",
        count: 0,
        room: 262144,
        first: None,
        third: None,
    },
];

// Asserts which datagram is at a place.
fn check_datagram(rt: &impl Abort, out: &Out, place: usize, wanted: Option<&[u8]>) {
    let wanted = match wanted {
        Some(bytes) => Some((TO, bytes)),
        None => None,
    };
    assert_eq!(rt; out.datagram(place), wanted);
}

// Asserts what an output shows.
fn check_shown(rt: &impl Abort, out: &Out, shown: &Shown) {
    assert_eq!(rt; out.reply(), shown.reply);
    assert_eq!(rt; (out.count(), out.room()), (shown.count, shown.room));
    check_datagram(rt, out, 0, shown.first);
    check_datagram(rt, out, 2, shown.third);
}

#[test]
fn an_out_keeps_what_is_written(rt: HostRuntime) {
    let mut out = Out::make(rt.alloc()).expect(&rt, "out of memory");
    for shown in SHOWN {
        write(&mut out, shown.written);
        check_shown(&rt, &out, shown);
    }
}

#[test]
fn a_source_gives_what_is_read(rt: HostRuntime) {
    let mut source = ReadSource::new(b"ab".as_slice());
    let mut buf = [0u8; 4];
    assert_eq!(rt; source.take(&mut buf), Taken::Got(2));
    assert!(rt; buf == *b"ab\0\0");
    assert_eq!(rt; source.take(&mut buf), Taken::End);
}

#[test]
fn a_sink_takes_all_that_is_written(rt: HostRuntime) {
    let mut sink = WriteSink::new(std::io::sink());
    assert_eq!(rt; sink.put(b"ab"), Put::Whole);
}
