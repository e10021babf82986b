//! The type `Packets`. A clause sees the list of the bytes.
ghost use Rattle.std.specs.Prelude.{◌≡◌, ◌≤◌, length};

use satip_base::limits::PAYLOAD;
use std::marker::Model;

/// The bytes of the packets of one datagram: at most 1316.
#[derive(Drop)]
pub struct Packets {
    bytes: [u8; PAYLOAD],
    length: u16,
}

impl Model for Packets {
    ghost use Rattle.std.specs.Prelude.{List, ℕ, ◌≤◌, take};

    ghost Value = { List ℕ };

    ghost view = { λ p. take p.length p.bytes };

    ghost invariant = { λ p. p.length ≤ 1316 };
}

impl Packets {
    /// Copies these bytes.
    pub fn of(bytes: &[u8]) -> Packets
        requires few { length bytes.now ≤ PAYLOAD }
        ensures bytes { result ≡ bytes.now }
    {
        let mut copy = [0; PAYLOAD];
        copy[..bytes.len()].copy_from_slice(bytes);
        Packets {
            bytes: copy,
            length: bytes.len() as u16,
        }
    }

    /// Returns the bytes.
    pub fn bytes(&self) -> &[u8]
        ensures bytes { result.now ≡ self.now }
    {
        &self.bytes[..self.length as usize]
    }
}
