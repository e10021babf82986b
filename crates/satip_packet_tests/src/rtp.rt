//! Packing of few packets.
mod plain;
mod sides;

ghost use Rattle.std.specs.Prelude.{◌≡◌, ◌+◌, ◌*◌, ◌<◌, ◌≤◌, [], ◌∷◌, ◌++◌, true, false};
ghost use Rattle.std.specs.List.{range_with_len};
ghost use Rattle.satip_rtp.specs.Cut.{cut};
ghost use Rattle.satip_rtp.specs.Bytes.{rtp_header};
ghost use Rattle.satip_rtp.specs.Held.{packets_in};

use crate::checks::check;
use satip_base::{Address, Out};
use satip_rtp::Packer;
use satip_ts::Packet;
use std::alloc::Global;
use std::process::Abort;

const TO: Address = Address {
    ip: 3232235796,
    port: 1400,
};

// The rows of the definitions.
fn worked_cuts()
    ensures held { cut false (range_with_len 0 6) ≡ [] }
    ensures seventh { cut false (range_with_len 0 8) ≡ range_with_len 0 7 ∷ [] }
    ensures flushed { cut true (range_with_len 0 16)
        ≡ range_with_len 0 7 ∷ range_with_len 7 7 ∷ (14 ∷ 15 ∷ []) ∷ [] }
    ensures nothing { cut true (range_with_len 0 0) ≡ [] }
    ensures header { rtp_header 65535 1000 287454020
        ≡ 128 ∷ 33 ∷ 255 ∷ 255 ∷ 0 ∷ 1 ∷ 95 ∷ 144 ∷ 17 ∷ 34 ∷ 51 ∷ 68 ∷ [] }
    ensures no_places { packets_in (range_with_len 0 388) 0 ≡ [] }
    ensures places { packets_in (range_with_len 0 388) 2
        ≡ range_with_len 12 188 ∷ range_with_len 200 188 ∷ [] }
{}

// Pushes the same packet again and again at clock 1000.
fn push_packets(packer: &mut Packer, packet: &Packet, count: u8, out: &mut Out)
    requires bytes { 1328 * count ≤ out.old.datagram_spare }
    requires count { count ≤ out.old.count_spare }
    ensures bytes_spare { out.old.datagram_spare ≤ out.new.datagram_spare + 1328 * count }
    ensures count_spare { out.old.count_spare ≤ out.new.count_spare + count }
{
    for _pushed in 0..count {
        packer.push(packet, 1000, TO, out);
    }
}

// Whether a datagram has this head, and so many bytes behind it, which are those of packets of the
// byte 0x47.
fn is_sent(out: &Out, place: usize, head: &[u8; 12], length: usize) -> bool {
    let Some((to, bytes)) = out.datagram(place) else {
        return false;
    };
    let (front, packets) = bytes.split_at(bytes.len().min(12));
    to == TO
        && front == head.as_slice()
        && packets.len() == length
        && packets.iter().all(|byte| *byte == 0x47)
}

// The next number, and how many datagrams and octets were sent.
fn state(packer: &Packer) -> (u16, u32, u32) {
    (packer.next(), packer.datagrams(), packer.octets())
}

// Returns what eight packets and two flushes come to: the packer, what it sent, and whether each
// flush sent.
fn send_eight(rt: &impl Abort, alloc: Global) -> (Packer, Out, [bool; 2]) {
    let mut out = Out::make(alloc).expect(rt, "out of memory");
    let packet = Packet::of(&[0x47; 188]).expect(rt, "packet");
    let mut packer = Packer::new(0x11223344, 65535);
    push_packets(&mut packer, &packet, 8, &mut out);
    let first = packer.flush(1000, TO, &mut out);
    let second = packer.flush(1000, TO, &mut out);
    (packer, out, [first, second])
}

#[test]
fn the_seventh_packet_sends_and_the_number_wraps(rt: HostRuntime) {
    let (packer, out, flushed) = send_eight(&rt, rt.alloc());
    let counted = (flushed, out.count(), state(&packer));
    check(&rt, "counts", counted, ([true, false], 2, (1, 2, 1504)));
    let first = b"\x80\x21\xff\xff\x00\x01\x5f\x90\x11\x22\x33\x44";
    let second = b"\x80\x21\x00\x00\x00\x01\x5f\x90\x11\x22\x33\x44";
    let sent = [is_sent(&out, 0, first, 1316), is_sent(&out, 1, second, 188)];
    check(&rt, "datagrams", sent, [true, true]);
}

#[test]
fn six_packets_wait_for_a_flush(rt: HostRuntime) {
    let mut out = Out::make(rt.alloc()).expect(&rt, "out of memory");
    let packet = Packet::of(&[0x47; 188]).expect(&rt, "packet");
    let mut packer = Packer::new(0x11223344, 65535);
    push_packets(&mut packer, &packet, 6, &mut out);
    let waiting = out.count();
    let flushed = packer.flush(1040, TO, &mut out);
    let head = b"\x80\x21\xff\xff\x00\x01\x6d\xa0\x11\x22\x33\x44";
    let sent = is_sent(&out, 0, head, 1128);
    check(&rt, "six", (waiting, flushed, sent), (0, true, true));
}
