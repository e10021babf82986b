//! A text, and bytes that may follow it.
ghost use Rattle.std.specs.Prelude.{◌≡◌, ◌+◌, ◌≤◌, [], ◌++◌, length};

use std::marker::Model;

/// The room for a head and for the bytes that can end it.
const ROOM: usize = 8206;

/// A list of at most 8206 bytes.
#[derive(Drop)]
pub(crate) struct Draft {
    room: [u8; ROOM],
    count: usize,
}

impl Model for Draft {
    ghost use Rattle.std.specs.Prelude.{List, ℕ, take, ◌≤◌};

    ghost Value = { List ℕ };

    ghost view = { λ d. take d.count d.room };

    ghost invariant = { λ d. d.count ≤ 8206 };
}

impl Draft {
    pub(crate) fn new() -> Draft
        ensures empty { result ≡ [] }
    {
        Draft {
            room: [0; ROOM],
            count: 0,
        }
    }

    pub(crate) fn bytes(&self) -> &[u8]
        ensures bytes { result.now ≡ self.now }
    {
        &self.room[..self.count]
    }

    pub(crate) fn write(&mut self, bytes: &[u8])
        requires room { length self.old + length bytes.now ≤ 8206 }
        ensures wrote { self.new ≡ self.old ++ bytes.now }
    {
        let end = self.count + bytes.len();
        self.room[self.count..end].copy_from_slice(bytes);
        self.count = end;
    }
}
