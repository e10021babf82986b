//! The words of a printed line.

ghost use Rattle.std.specs.Prelude.{◌≡◌, ◌+◌, ◌≤◌, [], length, decimal};
ghost use Rattle.satip_base.specs.Printed.{Printed};

use arrayvec::ArrayVec;
use itoa::Buffer;
use std::marker::Model;

/// Holds at most 128 bytes. A `Strip` has 1600, which are too many to clear for each line of a run.
#[derive(Drop)]
pub(crate) struct Front {
    text: ArrayVec<u8, 128>,
}

impl Model for Front {
    ghost use Rattle.std.specs.Prelude.{ℕ, List};

    ghost Value = { List ℕ };

    ghost view = { λ f. f.text.items };
}

impl Front {
    /// Returns an empty line.
    pub(crate) fn new() -> Front
        ensures empty { result ≡ [] }
    {
        Front {
            text: ArrayVec::new(),
        }
    }

    /// Returns the bytes that were written.
    pub(crate) fn bytes(&self) -> &[u8]
        ensures bytes { result.now ≡ self.now }
    {
        self.text.as_slice()
    }

    /// Appends bytes.
    pub(crate) fn write(&mut self, bytes: &[u8])
        requires room { length self.old + length bytes.now ≤ 128 }
        ensures printed { Printed self.old bytes.now self.new }
    {
        self.text.try_extend_from_slice(bytes).unwrap();
    }

    /// Appends a number, in decimal.
    pub(crate) fn write_number(&mut self, number: u64)
        requires room { length self.old + length (decimal number) ≤ 128 }
        ensures printed { Printed self.old (decimal number) self.new }
    {
        self.write(Buffer::new().format(number).as_bytes());
    }
}
