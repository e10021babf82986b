//! The random draws, one for each message.

ghost use Rattle.std.specs.Prelude.{◌≡◌, ℕ, ◌+◌, List};
ghost use Rattle.satip_worker.specs.Drawing.{draw_at, before_draw, StandsBefore};

use rand_chacha::ChaCha20Rng;
use rand_core::SeedableRng;
use rand_core::utils::NextWord;
use satip_base::Draw;
use std::marker::Model;

/// Draws out of one stream of the ChaCha20 generator under a key.
#[derive(Drop)]
pub struct Draws {
    words: ChaCha20Rng,
}

impl Model for Draws {
    ghost use Rattle.rand_chacha.specs.ChaCha.{ChaCha};
    ghost use Rattle.satip_worker.specs.Drawing.{StandsBefore};

    ghost Value = { ChaCha };

    ghost view = { λ d. d.words };

    ghost invariant = { λ d. StandsBefore d.words };
}

impl Draws {
    /// Creates the draws of a stream, from its first word on.
    pub fn make(key: &[u8; 32], stream: u64) -> Draws
        ensures first { result ≡ before_draw key.now stream 0 }
    {
        let mut words = ChaCha20Rng::from_seed(*key);
        words.set_stream(stream);
        Draws { words }
    }

    // States the invariant of the draws; does nothing.
    pub(crate) fn known(&self)
        ensures stands { StandsBefore self.now }
    {
        let _ = &self.words;
    }

    /// Returns the next draw: three words of the stream, the last of them cut to 16 bits.
    pub fn next(&mut self) -> Draw
        ensures drawn { (key : List ℕ) (stream : ℕ) (number : ℕ)
            → self.old ≡ before_draw key stream number
            → result ≡ draw_at key stream number }
        ensures next { (key : List ℕ) (stream : ℕ) (number : ℕ)
            → self.old ≡ before_draw key stream number
            → self.new ≡ before_draw key stream (number + 1) }
    {
        draw(&mut self.words)
    }
}

// Takes three words of the stream.
fn draw(words: &mut ChaCha20Rng) -> Draw
    ensures drawn { (key : List ℕ) (stream : ℕ) (number : ℕ)
        → words.old ≡ before_draw key stream number
        → result ≡ draw_at key stream number }
    ensures next { (key : List ℕ) (stream : ℕ) (number : ℕ)
        → words.old ≡ before_draw key stream number
        → words.new ≡ before_draw key stream (number + 1) }
{
    let word = words.next_word();
    let ssrc = words.next_word();
    let first = (words.next_word() % 65536) as u16;
    Draw { word, ssrc, first }
}
