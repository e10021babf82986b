//! A piece of a text, and its rest.

ghost use Rattle.std.specs.Prelude.{◌≡◌, ◌<◌, ◌≤◌, ◌++◌, ℕ, List, [], length, true, false, None};
ghost use Rattle.satip_frame.specs.Held.{capacity};

use crate::framing::Framer;
use std::marker::Model;

/// The bytes of a piece that no framer took yet.
#[derive(Drop)]
pub struct Piece<'a> {
    rest: &'a [u8],
}

impl<'a> Model for Piece<'a> {
    ghost use Rattle.std.specs.Prelude.{ℕ, List};

    ghost Value = { List ℕ };

    ghost view = { λ p. p.rest.now };
}

impl<'a> Piece<'a> {
    /// Returns a whole piece, of which nothing was taken.
    pub fn new(bytes: &'a [u8]) -> Piece<'a>
        ensures whole { result ≡ bytes.now }
    {
        Piece { rest: bytes }
    }

    /// Returns whether nothing is left.
    pub fn is_empty(&self) -> bool
        ensures empty { result ≡ true → self.now ≡ [] }
        ensures some { result ≡ false → 0 < length self.now }
    {
        self.rest.is_empty()
    }

    // Feeds a framer as many bytes as it has room for.
    pub(crate) fn give(&mut self, framer: &mut Framer)
        requires open { framer.old.ended ≡ None }
        ensures kept { framer.new.bytes ++ self.new ≡ framer.old.bytes ++ self.old }
        ensures open { framer.new.ended ≡ None }
        ensures shorter { length self.new ≤ length self.old }
        ensures fewer { length framer.new.bytes < capacity → 0 < length self.new
            → length self.new < length self.old }
    {
        if !self.rest.is_empty() {
            let count = framer.feed(self.rest);
            self.rest = self.rest.split_at(count).1;
        }
    }
}
