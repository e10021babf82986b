//! `Packer`; in contracts it is its source, the held packets, the next sequence number and its
//! counts.
ghost use Rattle.std.specs.Prelude.{◌≡◌, ◌≢◌, ℕ, ◌+◌, ◌*◌, ◌%◌, ◌≤◌, ◌↔◌, IsTrue, true, false, [], ◌∷◌, ◌++◌, length, drop};
ghost use Rattle.satip_rtp.specs.Bytes.{rtp_header, timestamp};
ghost use Rattle.satip_rtp.specs.Held.{packets_in};
ghost use Rattle.satip_rtp.specs.Sending.{SendsAll};
ghost use Rattle.satip_rtp.specs.Packing.{packing, holding, after_cut, leaving};

use satip_base::limits::{DATAGRAM, PACKET, PAYLOAD, RTP_HEAD};
use satip_base::{Address, Out};
use satip_ts::Packet;
use std::marker::Model;

/// Packs the packets of one session into RTP datagrams of 7 packets. Only a flush makes a datagram
/// with fewer.
#[derive(Drop)]
pub struct Packer {
    ssrc: u32,
    next: u16,
    datagrams: u32,
    octets: u32,
    // The next datagram: room for its header, followed by the held packets.
    bytes: [u8; DATAGRAM],
    count: usize,
}

impl Model for Packer {
    ghost use Rattle.std.specs.Prelude.{◌≤◌};
    ghost use Rattle.satip_rtp.specs.Held.{packets_in};
    ghost use Rattle.satip_rtp.specs.Packing.{Packing};

    ghost Value = { Packing };

    ghost view = { λ p. record {
      ssrc = p.ssrc;
      held = packets_in p.bytes p.count;
      next = p.next;
      datagrams = p.datagrams;
      octets = p.octets;
    } };

    ghost invariant = { λ p. p.count ≤ 6 };
}

impl Packer {
    /// Returns a packer that holds nothing, with its source (RFC 3550: SSRC) and its first sequence
    /// number.
    #[tactic(auto, unfolding(crate::specs::Held::packets_in))]
    pub fn new(ssrc: u32, first: u16) -> Packer
        ensures new { result ≡ packing ssrc first }
    {
        Packer {
            ssrc,
            next: first,
            datagrams: 0,
            octets: 0,
            bytes: [0; DATAGRAM],
            count: 0,
        }
    }

    /// Adds a packet, and returns whether it is the seventh. If so, it appends the datagram of the
    /// seven to `out`. `clock` is in milliseconds.
    pub fn push(&mut self, packet: &Packet, clock: u64, to: Address, out: &mut Out) -> bool
        requires bytes { DATAGRAM ≤ out.old.datagram_spare }
        requires count { out.old.count_spare ≢ 0 }
        ensures seventh { IsTrue result ↔ (length self.old.held ≡ 6) }
        ensures packing { self.new ≡ after_cut false (holding self.old packet.now) }
        ensures sent { SendsAll out.old (leaving false (holding self.old packet.now) clock to)
            out.new }
        ensures bytes_spare { out.old.datagram_spare ≤ out.new.datagram_spare + DATAGRAM }
        ensures count_spare { out.old.count_spare ≤ out.new.count_spare + 1 }
    {
        put_packet(&mut self.bytes, self.count, packet.bytes());
        if self.count < 6 {
            self.count += 1;
            return false;
        }
        write_header(&mut self.bytes, self.next, clock, self.ssrc);
        out.append(to, &self.bytes);
        self.count = 0;
        self.next = self.next.wrapping_add(1);
        self.datagrams = self.datagrams.wrapping_add(1);
        self.octets = self.octets.wrapping_add(PAYLOAD as u32);
        true
    }

    /// Sends the held packets in a datagram. Returns `false` if none is held. `clock` is in
    /// milliseconds.
    pub fn flush(&mut self, clock: u64, to: Address, out: &mut Out) -> bool
        requires bytes { DATAGRAM ≤ out.old.datagram_spare }
        requires count { out.old.count_spare ≢ 0 }
        ensures nothing { (result ≡ false) ↔ (self.old.held ≡ []) }
        ensures packing { self.new ≡ after_cut true self.old }
        ensures sent { SendsAll out.old (leaving true self.old clock to) out.new }
        ensures bytes_spare { out.old.datagram_spare ≤ out.new.datagram_spare + DATAGRAM }
        ensures count_spare { out.old.count_spare ≤ out.new.count_spare + 1 }
    {
        if self.count == 0 {
            return false;
        }
        write_header(&mut self.bytes, self.next, clock, self.ssrc);
        let end = RTP_HEAD + PACKET * self.count;
        out.append(to, &self.bytes[..end]);
        self.octets = self.octets.wrapping_add(PACKET as u32 * self.count as u32);
        self.count = 0;
        self.next = self.next.wrapping_add(1);
        self.datagrams = self.datagrams.wrapping_add(1);
        true
    }

    /// Returns the sequence number of the next datagram.
    pub fn next(&self) -> u16
        ensures next { result ≡ self.now.next }
        ensures few { length self.now.held ≤ 6 }
    {
        self.next
    }

    /// Returns the number of datagrams sent, modulo 2^32.
    pub fn datagrams(&self) -> u32
        ensures datagrams { result ≡ self.now.datagrams }
    {
        self.datagrams
    }

    /// Returns the number of payload bytes sent, modulo 2^32.
    pub fn octets(&self) -> u32
        ensures octets { result ≡ self.now.octets }
    {
        self.octets
    }
}

// Writes a packet after those before it.
fn put_packet(bytes: &mut [u8; DATAGRAM], place: usize, packet: &[u8; PACKET])
    requires within { place ≤ 6 }
    ensures put { packets_in bytes.new (place + 1) ≡ packets_in bytes.old place ++ packet.now ∷ [] }
{
    let start = RTP_HEAD + PACKET * place;
    bytes[start..start + PACKET].copy_from_slice(packet);
}

// Writes the header before the packets.
fn write_header(bytes: &mut [u8; DATAGRAM], number: u16, clock: u64, ssrc: u32)
    ensures header { bytes.new ≡ rtp_header number clock ssrc ++ drop 12 bytes.old }
{
    bytes[..2].copy_from_slice(&[0x80, 0x21]);
    bytes[2..4].copy_from_slice(&number.to_be_bytes());
    bytes[4..8].copy_from_slice(&timestamp_of(clock).to_be_bytes());
    bytes[8..12].copy_from_slice(&ssrc.to_be_bytes());
}

fn timestamp_of(clock: u64) -> u32
    ensures timestamp { result ≡ timestamp clock }
{
    (clock as u128 * 90 % 0x1_0000_0000) as u32
}
