//! A short text on the stack.

ghost use Rattle.std.specs.Prelude.{◌≡◌, ◌+◌, ◌≤◌, [], length, decimal};
ghost use Rattle.satip_base.specs.Printed.{Printed};
ghost use Rattle.satip_base.specs.Texts.{address_text};

use crate::limits::REPORT;
use itoa::Buffer;
use std::marker::Model;

/// A list of at most 1600 bytes. It allocates no memory.
#[derive(Drop)]
pub struct Strip {
    room: [u8; REPORT],
    count: usize,
}

impl Model for Strip {
    ghost use Rattle.std.specs.Prelude.{List, ℕ, take, ◌≤◌};

    ghost Value = { List ℕ };

    ghost view = { λ s. take s.count s.room };

    ghost invariant = { λ s. s.count ≤ 1600 };
}

impl Strip {
    /// Returns an empty strip.
    pub fn new() -> Strip
        ensures empty { result ≡ [] }
    {
        Strip {
            room: [0; REPORT],
            count: 0,
        }
    }

    /// Returns the bytes that were written.
    pub fn bytes(&self) -> &[u8]
        ensures bytes { result.now ≡ self.now }
        ensures limit { length self.now ≤ REPORT }
    {
        &self.room[..self.count]
    }

    /// Appends bytes.
    pub fn write(&mut self, bytes: &[u8])
        requires room { length self.old + length bytes.now ≤ REPORT }
        ensures printed { Printed self.old bytes.now self.new }
    {
        let end = self.count + bytes.len();
        self.room[self.count..end].copy_from_slice(bytes);
        self.count = end;
    }

    /// Appends a number, in decimal.
    pub fn write_number(&mut self, number: u64)
        requires room { length self.old + length (decimal number) ≤ REPORT }
        ensures printed { Printed self.old (decimal number) self.new }
    {
        self.write(Buffer::new().format(number).as_bytes());
    }
}
