//! The plain body of a packer: packets in places of their own, and a datagram appended piece by
//! piece.
ghost use Rattle.std.specs.Prelude.{◌≢◌, ◌+◌, ◌*◌, ◌<◌, ◌≤◌, length};

use satip_base::{Address, Out};
use satip_ts::Packet;

/// A packer that keeps its packets apart.
#[derive(Drop)]
pub(crate) struct PlainPacker {
    pub(crate) ssrc: u32,
    pub(crate) next: u16,
    pub(crate) datagrams: u32,
    pub(crate) octets: u32,
    pub(crate) places: [[u8; 188]; 7],
    pub(crate) count: usize,
    ghost few: { count ≤ 6 },
}

impl PlainPacker {
    pub(crate) fn push(&mut self, packet: &Packet, clock: u64, to: Address, out: &mut Out) -> bool
        requires bytes { 1328 ≤ out.old.datagram_spare }
        requires count { out.old.count_spare ≢ 0 }
    {
        self.places[self.count] = *packet.bytes();
        if self.count < 6 {
            self.count += 1;
            return false;
        }
        send(self.next, clock, self.ssrc, &self.places, to, out);
        self.count = 0;
        self.next = self.next.wrapping_add(1);
        self.datagrams = self.datagrams.wrapping_add(1);
        self.octets = self.octets.wrapping_add(1316);
        true
    }

    pub(crate) fn flush(&mut self, clock: u64, to: Address, out: &mut Out) -> bool
        requires bytes { 1328 ≤ out.old.datagram_spare }
        requires count { out.old.count_spare ≢ 0 }
    {
        if self.count == 0 {
            return false;
        }
        send(
            self.next,
            clock,
            self.ssrc,
            &self.places[..self.count],
            to,
            out,
        );
        self.octets = self.octets.wrapping_add(188 * self.count as u32);
        self.count = 0;
        self.next = self.next.wrapping_add(1);
        self.datagrams = self.datagrams.wrapping_add(1);
        true
    }
}

fn send(number: u16, clock: u64, ssrc: u32, packets: &[[u8; 188]], to: Address, out: &mut Out)
    requires room { 12 + 188 * length packets.now ≤ out.old.datagram_spare }
    requires count { out.old.count_spare ≢ 0 }
{
    out.begin(to);
    out.extend(&[0x80, 0x21]);
    out.extend(&number.to_be_bytes());
    out.extend(&timestamp_of(clock).to_be_bytes());
    out.extend(&ssrc.to_be_bytes());
    extend_packets(packets, out);
}

fn extend_packets(packets: &[[u8; 188]], out: &mut Out)
    requires begun { 0 < length out.old.datagrams }
    requires room { 188 * length packets.now ≤ out.old.datagram_spare }
{
    for packet in packets {
        out.extend(packet);
    }
}

fn timestamp_of(clock: u64) -> u32 {
    (clock as u128 * 90 % 0x1_0000_0000) as u32
}
