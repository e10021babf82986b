//! Datagrams that are read, and datagrams that aren't.
use crate::checks::check;
use satip_base::{Address, Out};
use satip_rtp::Packer;
use satip_rtp_receiver::read_rtp;
use satip_ts::Packet;
use std::process::Abort;

// Returns version 2, payload type 33, number 65534, timestamp 90000, source 0x11223344, and eight
// packets, of which a datagram has at most seven.
fn eight_packets() -> [u8; 1516] {
    let mut bytes = [0; 1516];
    bytes[..12].copy_from_slice(b"\x80\x21\xff\xfe\x00\x01\x5f\x90\x11\x22\x33\x44");
    for number in 0..8usize {
        bytes[12 + 188 * number] = 0x47;
    }
    bytes
}

#[test]
fn a_datagram_is_read(rt: HostRuntime) {
    let bytes = eight_packets();
    let datagram = bytes.split_at(1328).0;
    let view = read_rtp(datagram).expect(&rt, "view");
    let packets = datagram.split_at(12).1;
    check(
        &rt,
        "datagram",
        (view.number, view.ssrc, view.packets),
        (65534, 0x11223344, packets),
    );
}

// Tells whether a datagram of this length is read that has this byte at a place. None if eight
// packets have no such place or length.
fn is_read_with(at: usize, byte: u8, length: usize) -> Option<bool> {
    let mut bytes = eight_packets();
    match bytes.get_mut(at) {
        Some(place) => *place = byte,
        None => return None,
    }
    let datagram = bytes.get(..length)?;
    Some(read_rtp(datagram).is_some())
}

// A byte at a place, the length of a datagram, and whether it is read.
type Row = (&'static str, usize, u8, usize, bool);

const ROWS: &[Row] = &[
    ("a marked one", 1, 0xa1, 1328, true),
    ("a marked and shorter one", 1, 0xa1, 200, true),
    ("another version", 0, 0x40, 1328, false),
    ("padding", 0, 0xa0, 1328, false),
    ("an extension", 0, 0x90, 1328, false),
    ("a contributing source", 0, 0x81, 1328, false),
    ("another payload type", 1, 0x20, 1328, false),
    ("another payload type, marked", 1, 0xe0, 1328, false),
    ("another first packet", 12, 0x46, 1328, false),
    ("another second packet", 200, 0x46, 1328, false),
    ("another third packet", 388, 0x46, 1328, false),
    ("another fourth packet", 576, 0x46, 1328, false),
    ("another fifth packet", 764, 0x46, 1328, false),
    ("another sixth packet", 952, 0x46, 1328, false),
    ("another seventh packet", 1140, 0x46, 1328, false),
    ("no byte", 0, 0x80, 0, false),
    ("one byte", 0, 0x80, 1, false),
    ("a byte less than a head", 0, 0x80, 11, false),
    ("a head", 0, 0x80, 12, false),
    ("a byte after the head", 0, 0x80, 13, false),
    ("a byte less than a packet", 0, 0x80, 199, false),
    ("a byte more than a packet", 0, 0x80, 201, false),
    ("a byte less than seven packets", 0, 0x80, 1327, false),
    ("eight packets", 0, 0x80, 1516, false),
];

fn check_rows(rt: &impl Abort, rows: &[Row]) {
    for (name, at, byte, length, read) in rows {
        check(rt, name, is_read_with(*at, *byte, *length), Some(*read));
    }
}

#[test]
fn datagrams_are_read_or_dropped_as_their_rows_say(rt: HostRuntime) {
    check_rows(&rt, ROWS);
}

// Tells whether a datagram has this number and source, and two packets of the byte 0x47.
fn is_read(bytes: &[u8], number: u16, ssrc: u32) -> bool {
    match read_rtp(bytes) {
        Some(view) => {
            view.number == number && view.ssrc == ssrc && view.packets == [0x47; 2 * 188].as_slice()
        }
        None => false,
    }
}

#[test]
fn what_a_packer_sends_is_read(rt: HostRuntime) {
    let to = Address {
        ip: 0x7f000001,
        port: 1400,
    };
    let packet = Packet::of(&[0x47; 188]).expect(&rt, "packet");
    let mut out = Out::make(rt.alloc()).expect(&rt, "out of memory");
    let mut packer = Packer::new(0xfedcba98, 513);
    packer.push(&packet, 1000, to, &mut out);
    packer.push(&packet, 1000, to, &mut out);
    packer.flush(1000, to, &mut out);
    let (_, bytes) = out.datagram(0).expect(&rt, "datagram");
    check(&rt, "two packets", is_read(bytes, 513, 0xfedcba98), true);
}
