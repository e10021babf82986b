//! A list of numbers in a fixed array.

ghost use Rattle.std.specs.Prelude.{◌≡◌, ◌<◌, ◌↔◌, [], ◌∷◌, ◌++◌, length, IsTrue, ◌≤◌};

use std::marker::Model;

/// Up to `ROOM` numbers, at the start of an array; the other places hold zero.
#[derive(Clone, Copy, Debug, PartialEq, Eq)]
pub struct Numbers<const ROOM: usize> {
    places: [u16; ROOM],
    count: usize,
}

impl<const ROOM: usize> Model for Numbers<ROOM> {
    ghost use Rattle.std.specs.Prelude.{ℕ, List, take, ◌++◌, ◌-◌, length, replicate};
    ghost use Rattle.satip_pids.specs.Packed.{IsPacked};

    ghost Value = { List ℕ };

    ghost view = { λ s. take s.count s.places };

    ghost invariant = { λ s. IsPacked ROOM s.places s.count };

    ghost inverse = { λ xs. record {
      places = xs
          ++ replicate (ROOM - length xs) 0;
      count = length xs;
    } };

    ghost use Rattle.satip_pids.specs.Unpacked.{unpacked};

    ghost inverse_ok = { λ s packed. unpacked ROOM s packed };
}

impl<const ROOM: usize> Numbers<ROOM> {
    /// Returns the empty list.
    pub fn new() -> Self
        ensures empty { result ≡ [] }
    {
        Numbers {
            places: [0; ROOM],
            count: 0,
        }
    }

    /// Returns the numbers, in the order in which they were pushed.
    pub fn as_slice(&self) -> &[u16]
        ensures numbers { result.now ≡ self.now }
        ensures within { length self.now ≤ ROOM }
    {
        &self.places[..self.count]
    }

    /// Returns whether there are `ROOM` numbers.
    pub fn is_full(&self) -> bool
        ensures full { IsTrue result ↔ (length self.now ≡ ROOM) }
        ensures within { length self.now ≤ ROOM }
    {
        self.count == ROOM
    }

    /// Appends a number.
    pub fn push(&mut self, number: u16)
        requires room { length self.old < ROOM }
        ensures added { self.new ≡ self.old ++ number ∷ [] }
    {
        self.places[self.count] = number;
        self.count += 1;
    }
}
