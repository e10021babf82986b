//! The next request of a text.

ghost use Rattle.std.specs.Prelude.{◌≡◌, ◌≢◌, ◌<◌, ◌++◌, ℕ, List, None, IsSome, IsSomeAnd, length};
ghost use Rattle.satip_frame.specs.Stream.{skip_newlines};
ghost use Rattle.satip_frame.specs.Asking.{AsksFirst, Hears};

use crate::asking::Asks;
use crate::framing::{Break, Framer, Step};
use crate::pieces::Piece;

/// The answer of `next_asked`.
#[derive(Clone, Copy, Debug, PartialEq, Eq)]
pub enum Next {
    /// The next message was found, and its request was written.
    Asked,
    /// The text is broken here, and the request of the break was written. Nothing after it is read.
    Last,
    /// The whole piece was taken, and it has no further whole message.
    Nothing,
}

// Reads the request of the message that was found.
fn read_found<A: Asks>(framer: &Framer, request: &mut A)
    requires found { IsSome framer.now.found }
    ensures asked { IsSomeAnd framer.now.found (λ message. request.new ≡ A.asked message) }
{
    match framer.message() {
        Some(message) => request.found(&message),
        None => unreachable!(),
    }
}

/// Feeds the rest of a piece to a framer up to the next request of the text, and reads that over
/// `request`. The text is all bytes so far: those fed, and the whole piece.
pub fn next_asked<A: Asks>(framer: &mut Framer, piece: &mut Piece<'_>, request: &mut A) -> Next
    requires open { framer.old.ended ≡ None }

    // Holds for each text, however it was cut into pieces.
    ensures hears { (text : List ℕ) (before : List A)
        → AsksFirst A.asked text before (framer.old.bytes ++ piece.old)
        → Hears A.asked A.broken text before request.new framer.new piece.new result }

    ensures open { result ≢ Next.Last → framer.new.ended ≡ None }
    ensures ended { result ≡ Next.Last → IsSome framer.new.ended }
    ensures kept { result ≡ Next.Nothing → request.new ≡ request.old }

    // Each message takes some of the bytes that wait.
    ensures fewer { result ≡ Next.Asked
        → length (skip_newlines (framer.new.bytes ++ piece.new))
        < length (skip_newlines (framer.old.bytes ++ piece.old)) }
{
    'pieces: loop {
        piece.give(framer);
        match framer.next() {
            Step::Message => {
                read_found(framer, request);
                return Next::Asked;
            }
            Step::More => {
                if piece.is_empty() {
                    return Next::Nothing;
                }
            }
            Step::Bad => {
                request.ended(Break::Bad);
                return Next::Last;
            }
            Step::TooLong => {
                request.ended(Break::TooLong);
                return Next::Last;
            }
        }
    }
}
