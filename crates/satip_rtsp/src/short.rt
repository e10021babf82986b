//! Prefixes of header values.
ghost use Rattle.std.specs.Prelude.{◌≡◌, ◌≤◌, length, take};

use std::marker::Model;

const ROOM: usize = 128;

/// The first bytes of a text, at most 128.
#[derive(Clone, Copy, Debug, PartialEq, Eq)]
pub struct Short {
    places: [u8; 128],
    count: usize,
}

impl Model for Short {
    ghost use Rattle.std.specs.Prelude.{ℕ, List, take, ◌++◌, ◌-◌, length, replicate};
    ghost use Rattle.satip_query.specs.Packed.{IsPacked};

    ghost Value = { List ℕ };

    ghost view = { λ s. take s.count s.places };

    ghost invariant = { λ s. IsPacked 128 s.places s.count };

    ghost inverse = { λ xs. record {
      places = xs
          ++ replicate (128 - length xs) 0;
      count = length xs;
    } };

    ghost use Rattle.satip_rtsp.specs.Packed.{unpacked};

    ghost inverse_ok = { λ s packed. unpacked s packed };
}

impl Short {
    /// Returns the first 128 bytes of a text, or all if it has fewer.
    pub fn of(text: &[u8]) -> Short
        ensures first { result ≡ take 128 text.now }
    {
        let count = text.len().min(ROOM);
        let mut places = [0; ROOM];
        places[..count].copy_from_slice(&text[..count]);
        Short { places, count }
    }

    /// Returns the bytes.
    pub fn bytes(&self) -> &[u8]
        ensures bytes { result.now ≡ self.now }
        ensures few { length self.now ≤ 128 }
    {
        &self.places[..self.count]
    }
}
