//! The packer in place beside the plain one, over many calls.

use super::plain::PlainPacker;
use crate::checks::check;
use satip_base::{Address, Out};
use satip_fixtures::draws::next_word;
use satip_rtp::Packer;
use satip_ts::Packet;
use std::alloc::Global;
use std::process::Abort;

/// Both packers, each with what its last call wrote.
#[derive(Drop)]
struct Sides {
    packer: Packer,
    out: Out,
    plain: PlainPacker,
    plain_out: Out,
}

impl Sides {
    /// Both with the same source and first number.
    fn make(rt: &impl Abort, alloc: Global) -> Sides {
        Sides {
            packer: Packer::new(0x11223344, 65000),
            out: Out::make(alloc).expect(rt, "out of memory"),
            plain: PlainPacker {
                ssrc: 0x11223344,
                next: 65000,
                datagrams: 0,
                octets: 0,
                places: [[0; 188]; 7],
                count: 0,
            },
            plain_out: Out::make(alloc).expect(rt, "out of memory"),
        }
    }

    /// Makes the same call of both, which a word stands for: one in eight flushes, and each other
    /// pushes a packet of its bytes. True where both answer and write the same, and tell the same
    /// afterwards.
    fn agree_on(&mut self, word: u64) -> bool {
        self.out.clear();
        self.plain_out.clear();
        let clock = word >> 20;
        let to = Address {
            ip: (word >> 32) as u32,
            port: (word >> 48) as u16,
        };
        if word >> 61 == 0 {
            let flushed = self.packer.flush(clock, to, &mut self.out);
            let plain_flushed = self.plain.flush(clock, to, &mut self.plain_out);
            return flushed == plain_flushed && self.is_same();
        }
        let Some(packet) = packet_of(word) else {
            return false;
        };
        let sent = self.packer.push(&packet, clock, to, &mut self.out);
        let plain_sent = self.plain.push(&packet, clock, to, &mut self.plain_out);
        sent == plain_sent && self.is_same()
    }

    fn is_same(&self) -> bool {
        self.out.count() == self.plain_out.count()
            && is_same_datagram(self.out.datagram(0), self.plain_out.datagram(0))
            && self.packer.next() == self.plain.next
            && self.packer.datagrams() == self.plain.datagrams
            && self.packer.octets() == self.plain.octets
    }
}

fn is_same_datagram(own: Option<(Address, &[u8])>, plain: Option<(Address, &[u8])>) -> bool {
    match (own, plain) {
        (Some((to, bytes)), Some((plain_to, plain_bytes))) => to == plain_to
            && bytes == plain_bytes,
        (None, None) => true,
        _ => false,
    }
}

/// A packet whose other bytes come from a word, each place's its own.
fn packet_of(word: u64) -> Option<Packet> {
    let mut bytes = [0x47; 188];
    for place in 1..188usize {
        bytes[place] = (word.rotate_left(place as u32 % 64) & 0xff) as u8 ^ place as u8;
    }
    Packet::of(&bytes)
}

#[test]
fn the_packer_does_what_the_plain_one_does(rt: HostRuntime) {
    let mut sides = Sides::make(&rt, rt.alloc());
    let mut word = 7;
    for _call in 0..10_000u32 {
        word = next_word(word);
        check(&rt, "a call", (word, sides.agree_on(word)), (word, true));
    }
    let (datagrams, next) = (sides.packer.datagrams(), sides.packer.next());
    let many = (datagrams > 1000, next < 65000);
    check(&rt, "datagrams and numbers", many, (true, true));
}
