//! `Packet`; in contracts it is the list of its bytes.
ghost use Rattle.std.specs.Prelude.{◌≡◌, ◌≢◌, ◌<◌, ◌↔◌, IsNone, IfSome, slice_index};
ghost use Rattle.satip_ts.specs.Packet.{IsPacket, pid_of};

use std::marker::Model;

pub(crate) const SYNC_BYTE: u8 = 0x47;

/// A transport packet: 188 bytes, of which the first is the sync byte 0x47 (ISO 13818-1, 2.4.3.2).
#[derive(Clone, Copy, Debug, PartialEq, Eq)]
pub struct Packet {
    bytes: [u8; 188],
}

impl Model for Packet {
    ghost use Rattle.std.specs.Prelude.{List, ℕ};
    ghost use Rattle.satip_ts.specs.Packet.{IsPacket};

    ghost Value = { List ℕ };

    ghost view = { λ p. p.bytes };

    ghost invariant = { λ p. IsPacket p.bytes };

    ghost inverse = { λ bytes. record { bytes = bytes } };
}

impl Packet {
    /// Returns the packet of these bytes; `None` if they don't begin with the sync byte.
    pub fn of(bytes: &[u8; 188]) -> Option<Packet>
        ensures none { IsNone result ↔ (slice_index bytes.now 0 ≢ 71) }
        ensures bytes { IfSome result (λ packet. packet ≡ bytes.now) }
    {
        if bytes[0] != SYNC_BYTE {
            return None;
        }
        Some(Packet { bytes: *bytes })
    }

    /// Returns the packet identifier (PID): 13 bits.
    pub fn pid(&self) -> u16
        ensures pid { result ≡ pid_of self.now }
        ensures within { result < 8192 }
    {
        u16::from(self.bytes[1] & 0x1f) << 8 | u16::from(self.bytes[2])
    }

    /// Returns all 188 bytes.
    pub fn bytes(&self) -> &[u8; 188]
        ensures bytes { result.now ≡ self.now }
        ensures packet { IsPacket self.now }
    {
        &self.bytes
    }
}
