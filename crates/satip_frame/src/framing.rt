//! The framer: it holds the bytes that belong to no message yet, and finds the next message in
//! them.
ghost use Rattle.std.specs.Prelude.{◌≡◌, ◌↔◌, ◌⊎◌, ◌<◌, ◌≤◌, ◌++◌, ℕ, List, [], length, take, drop, vec_len, vec_capacity, Option, IfOk, IsSome, IsNone};
ghost use Rattle.satip_frame.specs.Said.{Said};
ghost use Rattle.satip_frame.specs.Stream.{Tail, Broken, skip_newlines, Messages, Leads};
ghost use Rattle.satip_frame.specs.Held.{Held, new_framer, capacity, bytes_taken, step_of, cause_of, Tells};
ghost use Rattle.satip_frame.specs.Fronts.{IsSeen, IsFront};
ghost use Rattle.satip_frame.specs.Inner.{IsPlace, said_in};

use crate::heads::HEADER_LIMIT;
use crate::looking::{Found, Front, NOTHING_SEEN, Seen, count_newlines, look};
use crate::said::Message;
use httparse::spans::{EMPTY_HEADER_SPAN, HeaderSpan};
use satip_base::Want;
use std::alloc::Global;
use std::marker::Model;

const CAPACITY: usize = 12288;

/// The reason that no further message can be read.
#[derive(Clone, Copy, Debug, PartialEq, Eq)]
pub enum Break {
    /// The next bytes aren't a message.
    Bad,
    /// The message announces a body of more than 4096 bytes.
    TooLong,
}

/// The answer of `Framer::next`.
#[derive(Clone, Copy, Debug, PartialEq, Eq)]
pub enum Step {
    /// A whole message.
    Message,
    /// No further whole message is held yet.
    More,
    /// The next bytes aren't a message, and no further one is read.
    Bad,
    /// A message announces a body of more than 4096 bytes, and no further one is read.
    TooLong,
}

/// The place in the buffer of the message found last.
#[derive(Clone, Copy)]
struct Place {
    at: usize,
    found: Found,
}

#[derive(Clone, Copy)]
enum State {
    Reading,
    Holding(Place),
    Ended(Break),
}

/// Finds the messages of a stream of bytes that is fed in pieces of any size. It holds at most
/// 12288 bytes: a head of at most 8192 and a body of at most 4096.
#[derive(Drop)]
pub struct Framer {
    buffer: Vec<u8>,
    start: usize,
    headers: [HeaderSpan; HEADER_LIMIT],
    state: State,
    /// What is known of the bytes from `start` on.
    seen: Seen,
}

impl Model for Framer {
    ghost use Rattle.satip_frame.specs.Held.{Held};

    ghost Value = { Held };

    ghost use Rattle.std.specs.Prelude.{drop};
    ghost use Rattle.satip_frame.specs.Inner.{found_in, ended_in, IsFramer};

    ghost view = { λ f. record {
      bytes = drop f.start f.buffer.items;
      found = found_in f.buffer.items f.headers f.state;
      ended = ended_in f.state;
    } };

    ghost invariant = { λ f. IsFramer f.buffer f.start f.headers f.state f.seen };
}

impl Framer {
    /// Returns a framer to which nothing was fed. It allocates all its memory here; `Want` is out
    /// of memory.
    #[tactic(auto, using(crate::proofs::FramerLemmas::nothing_seen))]
    pub fn make(alloc: Global) -> Result<Framer, Want>
        ensures made { IfOk result (λ framer. framer ≡ new_framer) }
    {
        match Vec::with_capacity(alloc, CAPACITY) {
            Ok(buffer) => Ok(Framer {
                buffer,
                start: 0,
                headers: [EMPTY_HEADER_SPAN; HEADER_LIMIT],
                state: State::Reading,
                seen: NOTHING_SEEN,
            }),
            Err(_) => Err(Want),
        }
    }

    /// Removes all bytes, as for a new connection.
    #[tactic(auto, using(crate::proofs::FramerLemmas::nothing_seen))]
    pub fn reset(&mut self)
        ensures made { self.new ≡ new_framer }
    {
        self.buffer.clear();
        self.start = 0;
        self.state = State::Reading;
        self.seen = NOTHING_SEEN;
    }

    /// Takes bytes from the start of a piece, as many as there is room for, and returns their
    /// number. The message that was found last is gone then.
    #[tactic(auto, using(crate::proofs::FramerLemmas::seen_more))]
    pub fn feed(&mut self, piece: &[u8]) -> usize
        ensures count { result ≡ bytes_taken self.old (length piece.now) }
        ensures none { (result ≡ 0)
            ↔ ((piece.now ≡ []) ⊎ ((length self.old.bytes ≡ capacity) ⊎ IsSome self.old.ended)) }
        ensures bytes { self.new.bytes ≡ self.old.bytes ++ take result piece.now }

        // If a text was read up to the held bytes, then the text with the taken bytes is read up to
        // the new held bytes.
        ensures follows { (text : List ℕ) (ms : List Said) → Leads text ms self.old.bytes
            → Leads (text ++ take result piece.now) ms self.new.bytes }

        ensures found { IsNone self.new.found }
        ensures ended { self.new.ended ≡ self.old.ended }
    {
        if let State::Ended(_) = self.state {
            return 0;
        }
        forget(&mut self.buffer, self.start);
        self.start = 0;
        self.state = State::Reading;
        let count = piece.len().min(CAPACITY - self.buffer.len());
        self.buffer.extend_from_slice(&piece[..count]).unwrap();
        count
    }

    /// Looks for the next message in the bytes that were fed. After `Bad` or `TooLong` each call
    /// returns the same until `reset`.
    pub fn next(&mut self) -> Step
        // Holds for each text that was read up to the held bytes.
        ensures told { (text : List ℕ) (ms : List Said) → Leads text ms self.old.bytes
            → Tells text ms self.new result }
        ensures exact { (text : List ℕ) (ms : List Said) (tail : Tail)
            → Leads text ms self.old.bytes → Messages text ms tail → result ≡ step_of tail }

        ensures found { IsSome self.new.found ↔ (result ≡ Step.Message) }
        ensures ended { self.new.ended ≡ cause_of result }

        // No bytes are added, and after `More` there is room for the next byte.
        ensures shorter { length self.new.bytes ≤ length self.old.bytes }
        ensures room { result ≡ Step.More → length self.new.bytes < capacity }
    {
        if let State::Ended(cause) = self.state {
            return step_of(cause);
        }
        let (start, front) = find_front(&self.buffer, self.start, self.seen, &mut self.headers);
        self.start = start;
        self.seen = NOTHING_SEEN;
        match front {
            Front::Whole(found) => {
                self.state = State::Holding(Place {
                    at: self.start,
                    found,
                });
                self.start += found.len;
                Step::Message
            }
            Front::More(seen) => {
                self.state = State::Reading;
                self.seen = seen;
                Step::More
            }
            Front::Bad => {
                self.state = State::Ended(Break::Bad);
                Step::Bad
            }
            Front::TooLong => {
                self.state = State::Ended(Break::TooLong);
                Step::TooLong
            }
        }
    }

    /// Returns the bytes that were fed and belong to no message yet.
    pub fn held(&self) -> &[u8]
        ensures bytes { result.now ≡ self.now.bytes }
    {
        self.buffer.split_at(self.start).1
    }

    /// Drops the first `count` of these bytes, which then belong to no message. The message that
    /// was found last is gone then.
    #[tactic(auto, using(crate::proofs::FramerLemmas::nothing_seen))]
    pub fn skip(&mut self, count: usize)
        requires within { count ≤ length self.old.bytes }
        requires goes_on { IsNone self.old.ended }
        ensures bytes { self.new.bytes ≡ drop count self.old.bytes }
        ensures found { IsNone self.new.found }
        ensures ended { IsNone self.new.ended }
    {
        self.state = State::Reading;
        if count == 0 {
            return;
        }
        self.start += count;
        self.seen = NOTHING_SEEN;
    }

    /// Returns the message that the last `next` found; `None` if that found none, and after a
    /// `feed` or a `skip`.
    pub fn message(&self) -> Option<Message<'_>>
        ensures found { result ≡ self.now.found }
    {
        match self.state {
            State::Holding(place) => Some(message_at(&self.buffer, &self.headers, place)),
            State::Reading => None,
            State::Ended(_) => None,
        }
    }
}

fn step_of(cause: Break) -> Step
    ensures step { result ≡ step_of (Broken cause) }
{
    match cause {
        Break::Bad => Step::Bad,
        Break::TooLong => Step::TooLong,
    }
}

// Steps over the line ends at `start`, from where this was seen before. Returns the place after them
// and what begins there.
#[tactic(auto, using(crate::proofs::FramerLemmas::nothing_seen))]
fn find_front(
    buffer: &[u8],
    start: usize,
    seen: Seen,
    headers: &mut [HeaderSpan; HEADER_LIMIT],
) -> (usize, Front)
    requires within { start ≤ length buffer.now }
    requires seen { IsSeen (drop start buffer.now) seen }
    ensures within { result.0 ≤ length buffer.now }
    ensures start { drop result.0 buffer.now ≡ skip_newlines (drop start buffer.now) }
    ensures front { IsFront (drop result.0 buffer.now) headers.new result.1 }
{
    let skipped = start + count_newlines(buffer.split_at(start).1);
    let known = if skipped == start { seen } else { NOTHING_SEEN };
    let front = look(buffer.split_at(skipped).1, known, headers);
    (skipped, front)
}

fn message_at<'a>(
    buffer: &'a [u8],
    headers: &'a [HeaderSpan; HEADER_LIMIT],
    place: Place,
) -> Message<'a>
    requires { IsPlace buffer.now headers.now place }
    ensures said { result ≡ said_in buffer.now headers.now place }
{
    let head = &buffer[place.at..place.at + place.found.head];
    let line = place.found.line;
    Message::new(
        line.method.of(head),
        line.target.of(head),
        line.version.of(head),
        head,
        &headers[..place.found.headers],
    )
}

// Drops the first bytes of the buffer, and moves the others to its start.
fn forget(buffer: &mut Vec<u8>, count: usize)
    requires { count ≤ vec_len buffer.old }
    ensures items { buffer.new.items ≡ drop count buffer.old.items }
    ensures room { vec_capacity buffer.new ≡ vec_capacity buffer.old }
{
    if count == 0 {
        return;
    }
    let kept = buffer.len() - count;
    buffer.copy_within(count.., 0);
    buffer.truncate(kept);
}
