//! The parter: it skips the frames in the bytes that its framer holds, and has the framer find the
//! next message in them.
ghost use Rattle.std.specs.Prelude.{◌≡◌, ◌↔◌, ◌⊎◌, ◌<◌, ◌≤◌, ◌++◌, ℕ, List, [], length, take, IfOk, IsSome, IsNone, is_some};
ghost use Rattle.satip_frame.specs.Said.{Said};
ghost use Rattle.satip_frame.specs.Stream.{Tail};
ghost use Rattle.satip_frame.specs.Held.{capacity, cause_of, step_of};
ghost use Rattle.satip_rtsp_interleaved.specs.Parts.{Parts};
ghost use Rattle.satip_rtsp_interleaved.specs.Held.{Held, new_parter, bytes_taken, IsReadUpTo, Tells};
ghost use Rattle.satip_rtsp_interleaved.specs.Fronts.{IsParter, parter_of};

use crate::passing::pass_over;
use satip_base::Want;
use satip_frame::{Framer, Message, Step};
use std::alloc::Global;
use std::marker::Model;

/// Finds the messages of a connection's bytes, which are fed in pieces of any size. It skips the
/// interleaved frames between them (RFC 2326, section 10.12): `$`, a byte of channel, a length of
/// two bytes, and that many bytes. It holds at most 12288 bytes, and skips frames that don't fit in
/// them too.
#[derive(Drop)]
pub struct Parter {
    framer: Framer,
    to_come: usize,
    ended: bool,
}

impl Model for Parter {
    ghost use Rattle.satip_rtsp_interleaved.specs.Held.{Held};

    ghost Value = { Held };

    ghost use Rattle.satip_rtsp_interleaved.specs.Fronts.{IsParter, parter_of};

    ghost view = { λ p. parter_of p.to_come p.framer };

    ghost invariant = { λ p. IsParter p.framer p.to_come p.ended };
}

impl Parter {
    /// Returns a parter to which nothing was fed. It allocates all its memory here; `Want` is out
    /// of memory.
    pub fn make(alloc: Global) -> Result<Parter, Want>
        ensures made { IfOk result (λ parter. parter ≡ new_parter) }
    {
        let framer = Framer::make(alloc)?;
        Ok(Parter {
            framer,
            to_come: 0,
            ended: false,
        })
    }

    /// Removes all bytes, as for a new connection.
    pub fn reset(&mut self)
        ensures made { self.new ≡ new_parter }
    {
        self.framer.reset();
        self.to_come = 0;
        self.ended = false;
    }

    /// Takes bytes from the start of a piece, as many as there is room for, and returns their
    /// number. The message that was found last is gone then.
    pub fn feed(&mut self, piece: &[u8]) -> usize
        ensures count { result ≡ bytes_taken self.old (length piece.now) }
        ensures none { (result ≡ 0)
            ↔ ((piece.now ≡ []) ⊎ ((length self.old.bytes ≡ capacity) ⊎ IsSome self.old.ended)) }
        ensures bytes { self.new.bytes ≡ self.old.bytes ++ take result piece.now }
        ensures to_come { self.new.to_come ≡ self.old.to_come }

        // If a text was read up to the held bytes, then the text with the taken bytes is read up to
        // the new held bytes.
        ensures follows { (text : List ℕ) (ms : List Said) → IsReadUpTo text ms self.old
            → IsReadUpTo (text ++ take result piece.now) ms self.new }

        ensures found { IsNone self.new.found }
        ensures ended { self.new.ended ≡ self.old.ended }
    {
        self.framer.feed(piece)
    }

    /// Looks for the next message in the bytes that were fed, after the frames before it. After
    /// `Bad` or `TooLong` each call returns the same until `reset`. If a frame isn't whole, it
    /// skips the bytes that are there and returns `More`.
    pub fn next(&mut self) -> Step
        // Holds for each text that was read up to the held bytes.
        ensures told { (text : List ℕ) (ms : List Said) → IsReadUpTo text ms self.old
            → Tells text ms self.new result }
        ensures exact { (text : List ℕ) (ms : List Said) (tail : Tail)
            → IsReadUpTo text ms self.old → Parts text ms tail → result ≡ step_of tail }

        ensures found { IsSome self.new.found ↔ (result ≡ Step.Message) }
        ensures ended { self.new.ended ≡ cause_of result }

        // No bytes are added, and after `More` there is room for the next byte.
        ensures shorter { length self.new.bytes ≤ length self.old.bytes }
        ensures room { result ≡ Step.More → length self.new.bytes < capacity }
    {
        if self.ended {
            return self.framer.next();
        }
        let place = pass_over(self.framer.held(), self.to_come);
        self.framer.skip(place.count);
        self.to_come = place.to_come;
        if !place.at_message {
            return Step::More;
        }
        let step = self.framer.next();
        self.ended = is_end(step);
        step
    }

    /// Returns the message that the last `next` found; `None` if that found none, and after a
    /// `feed`.
    pub fn message(&self) -> Option<Message<'_>>
        ensures found { result ≡ self.now.found }
    {
        self.framer.message()
    }
}

// Returns whether no further message can be read.
fn is_end(step: Step) -> bool
    ensures end { result ≡ is_some (cause_of step) }
{
    match step {
        Step::Message => false,
        Step::More => false,
        Step::Bad => true,
        Step::TooLong => true,
    }
}
