//! The start of a text: a whole message, a prefix of one, or none.
ghost use Rattle.std.specs.Prelude.{◌≡◌, ◌≤◌, length, drop};
ghost use Rattle.satip_frame.specs.Stream.{skip_newlines};
ghost use Rattle.satip_frame.specs.Fronts.{IsSeen, IsFront};

use crate::heads::{FirstLine, HEAD_LIMIT, HEADER_LIMIT, head_end, read_head};
use httparse::spans::HeaderSpan;

/// The most bytes of a body.
pub(crate) const BODY_LIMIT: u64 = 4096;

/// The places of the parts of a message in the text that begins with it.
#[derive(Clone, Copy)]
pub(crate) struct Found {
    pub head: usize,
    pub line: FirstLine,
    pub headers: usize,
    /// The number of bytes of the head and the body.
    pub len: usize,
}

/// What is known of a text without a whole message.
#[derive(Clone, Copy)]
pub(crate) struct Seen {
    /// No head ends in these first bytes.
    pub looked: usize,
    /// No message is whole before the text has so many bytes: those of the head and the body once a
    /// head was found, else 0.
    pub needed: usize,
}

/// What is known of a text that wasn't looked at.
pub(crate) const NOTHING_SEEN: Seen = Seen {
    looked: 0,
    needed: 0,
};

/// The start of a text.
#[derive(Clone, Copy)]
pub(crate) enum Front {
    Whole(Found),
    More(Seen),
    Bad,
    TooLong,
}

/// Returns what the text begins with, of which this was seen before. The headers of a whole message
/// are written to the start of `headers`.
#[tactic(auto, using(crate::proofs::FramerLemmas::head_open))]
pub(crate) fn look(text: &[u8], seen: Seen, headers: &mut [HeaderSpan; HEADER_LIMIT]) -> Front
    requires seen { IsSeen text.now seen }
    ensures front { IsFront text.now headers.new result }
{
    if text.len() < seen.needed {
        return Front::More(seen);
    }
    let Some(head) = head_end(text, seen.looked) else {
        if text.len() < HEAD_LIMIT {
            return Front::More(Seen {
                looked: text.len(),
                needed: 0,
            });
        }
        return Front::Bad;
    };
    let Some(read) = read_head(&text[..head], headers) else {
        return Front::Bad;
    };
    if read.body > BODY_LIMIT {
        return Front::TooLong;
    }
    let len = head + read.body as usize;
    if text.len() < len {
        return Front::More(Seen {
            looked: seen.looked,
            needed: len,
        });
    }
    Front::Whole(Found {
        head,
        line: read.line,
        headers: read.headers,
        len,
    })
}

/// Returns the number of CR and LF that the text begins with.
pub(crate) fn count_newlines(text: &[u8]) -> usize
    ensures within { result ≤ length text.now }
    ensures skipped { drop result text.now ≡ skip_newlines text.now }
{
    for (i, byte) in text.iter().enumerate() {
        if *byte != b'\r' && *byte != b'\n' {
            return i;
        }
    }
    text.len()
}
