//! The bytes that came in on a connection and weren't used yet.

ghost use Rattle.std.specs.Prelude.{◌≡◌, ◌+◌, ◌<◌, ◌≤◌, [], ◌++◌, drop, length};
ghost use Rattle.satip_client.specs.Waits.{TakesIn};

use satip_base::limits::PIECE;
use satip_world::{Conn, Received};
use std::marker::Model;

/// The longest reply: a head of 8192 bytes and a body of 4096.
const ROOM: usize = 12288;

/// A list of at most 12288 bytes.
#[derive(Drop)]
pub struct Heard {
    room: [u8; ROOM],
    count: usize,
}

impl Model for Heard {
    ghost use Rattle.std.specs.Prelude.{List, ℕ, take, ◌≤◌};

    ghost Value = { List ℕ };

    ghost view = { λ h. take h.count h.room };

    ghost invariant = { λ h. h.count ≤ 12288 };
}

impl Heard {
    /// Creates an empty list.
    pub fn new() -> Heard
        ensures empty { result ≡ [] }
    {
        Heard {
            room: [0; ROOM],
            count: 0,
        }
    }

    /// Returns the bytes that came in and weren't used yet, in their order.
    pub fn bytes(&self) -> &[u8]
        ensures bytes { result.now ≡ self.now }
        ensures limit { length self.now ≤ 12288 }
    {
        &self.room[..self.count]
    }

    fn write(&mut self, bytes: &[u8])
        requires room { length self.old + length bytes.now ≤ 12288 }
        ensures wrote { self.new ≡ self.old ++ bytes.now }
    {
        let end = self.count + bytes.len();
        self.room[self.count..end].copy_from_slice(bytes);
        self.count = end;
    }

    /// Drops the first `count` bytes.
    pub(crate) fn pass(&mut self, count: usize)
        requires within { count ≤ length self.old }
        ensures left { self.new ≡ drop count self.old }
    {
        let mut rest = Heard::new();
        rest.write(self.bytes().split_at(count).1);
        *self = rest;
    }

    /// Receives once, and appends the bytes.
    pub(crate) fn take_in<W: Conn>(&mut self, wire: &mut W) -> Received
        requires room { length self.old < 12288 }
        ensures takes { TakesIn W.tells (W.line wire.old) (W.line wire.new) self.old self.new
            result }
    {
        let mut piece = [0; PIECE];
        let most = (ROOM - self.count).min(PIECE);
        match wire.receive(&mut piece[..most]) {
            Received::Got(count) => {
                self.write(&piece[..count]);
                Received::Got(count)
            }
            Received::Idle => Received::Idle,
            Received::End => Received::End,
            Received::Failed => Received::Failed,
        }
    }
}
