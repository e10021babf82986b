//! The head of a reply: its status line, its header block, and the length of its body.
ghost use Rattle.std.specs.Prelude.{◌≡◌, ℕ, ◌+◌, ◌<◌, ◌≤◌, List, [], ◌∷◌, ◌++◌, length, drop, slice_range, IfSome, IfNone, IsSomeAnd, MatchOption};
ghost use Rattle.std.specs.Char.{is_ascii_digit};
ghost use Rattle.std.specs.Str.Parse.{digits_value};
ghost use Rattle.httparse.specs.Grammar.{AllPass, Field, LineEnd, print_end, ReadsSection};
ghost use Rattle.httparse.specs.Pieces.{IsRunAt};
ghost use Rattle.httparse.specs.Spans.{IsSectionAt, IsSectionOf, IsSectionWithin};
ghost use Rattle.satip_client.specs.Heads.{Head, HasHead, IsReason, is_byte_of_phrase};
ghost use Rattle.satip_client.specs.Places.{HasLine, HasStatus, IsHeadAt, IsHeadWithin, IsLineAt};

use httparse::Status;
use httparse::spans::{HeaderSpan, parse_headers_from};
use satip_frame::{body_length, read_line_end};

/// The largest number of bytes of a head.
pub(crate) const HEAD_LIMIT: usize = 8192;

/// The largest number of headers of a reply.
pub(crate) const HEADER_LIMIT: usize = 64;

const BODY_LIMIT: u64 = 4096;

/// The bytes of the version, a space and three digits.
pub(crate) const STATUS_END: usize = 12;

/// The status of a status line, and the place where the line ends.
#[derive(Clone, Copy)]
pub(crate) struct StatusLine {
    pub status: u16,
    pub end: usize,
}

/// A head that was read: its status, the number of its headers, the place where it ends, and the
/// number of bytes of its body.
#[derive(Clone, Copy)]
pub(crate) struct HeadRead {
    pub status: u16,
    pub headers: usize,
    pub end: usize,
    pub body: usize,
}

/// Reads the head that the text begins with, and writes the places of its headers to the front of
/// `headers`.
pub(crate) fn read_head(text: &[u8], headers: &mut [HeaderSpan; HEADER_LIMIT]) -> Option<HeadRead>
    ensures within { IfSome result (IsHeadWithin text.now headers.new) }
    ensures found { IfSome result
        (λ read. (h : Head) × IsHeadAt text.now headers.new read h read.body) }
    ensures only { (h : Head) (size : ℕ) → HasHead text.now h size
        → IsSomeAnd result (λ read. IsHeadAt text.now headers.new read h size) }
{
    let Some(line) = read_line(text) else {
        return None;
    };
    let Some((end, count)) = read_block(text, line.end, headers) else {
        return None;
    };
    if end > HEAD_LIMIT {
        return None;
    }
    let Some(body) = body_length(text, &headers[..count]) else {
        return None;
    };
    if body > BODY_LIMIT {
        return None;
    }
    Some(HeadRead {
        status: line.status,
        headers: count,
        end,
        body: body as usize,
    })
}

// Reads the header block from `start` on. Returns the place where it ends and the number of its
// headers.
fn read_block(text: &[u8], start: usize, headers: &mut [HeaderSpan]) -> Option<(usize, usize)>
    requires { start ≤ length text.now }
    ensures within { IfSome result (λ block. IsSectionWithin text.now headers.new block.0 block.1) }
    ensures found { IfSome result (IsSectionOf text.now start headers.new) }
    ensures only { (fields : List Field) (last : LineEnd) (rest : List ℕ)
        → ReadsSection (drop start text.now) fields last rest
        → length fields ≤ length headers.old
        → IsSomeAnd result
        (λ block. IsSectionAt text.now start headers.new block.0 block.1 fields last) }
{
    match parse_headers_from(text, start, headers) {
        Ok(Status::Complete(block)) => Some(block),
        Ok(Status::Partial) => None,
        Err(_) => None,
    }
}

fn read_line(text: &[u8]) -> Option<StatusLine>
    ensures found { IfSome result (IsLineAt text.now) }
    ensures none { IfNone result ((digits reason : List ℕ) (end : LineEnd) (rest : List ℕ)
        → HasLine text.now digits reason end rest → ⊥) }
{
    let Some(status) = read_status(text) else {
        return None;
    };
    let Some(end) = read_line_end(text, reason_end(text)) else {
        return None;
    };
    Some(StatusLine { status, end })
}

fn read_status(text: &[u8]) -> Option<u16>
    ensures within { IfSome result (λ status. STATUS_END ≤ length text.now) }
    ensures found { IfSome result (λ status. (digits : List ℕ)
        × HasStatus text.now digits (drop STATUS_END text.now)
        × (status ≡ digits_value 10 digits)) }
    ensures none { IfNone result ((digits rest : List ℕ) → HasStatus text.now digits rest → ⊥) }
{
    if text.len() < STATUS_END || !text.starts_with(b"RTSP/1.0 ") {
        return None;
    }
    three_digits(text[9], text[10], text[11])
}

fn three_digits(first: u8, second: u8, third: u8) -> Option<u16>
    ensures number { MatchOption result
        (AllPass is_ascii_digit (first ∷ second ∷ third ∷ []) → ⊥)
        (λ number. AllPass is_ascii_digit (first ∷ second ∷ third ∷ [])
        × (number ≡ digits_value 10 (first ∷ second ∷ third ∷ []))) }
{
    if !first.is_ascii_digit() || !second.is_ascii_digit() || !third.is_ascii_digit() {
        return None;
    }
    let hundreds = (first - b'0') as u16;
    let tens = (second - b'0') as u16;
    Some(hundreds * 100 + tens * 10 + (third - b'0') as u16)
}

// Returns the place where the reason after the three digits ends.
fn reason_end(text: &[u8]) -> usize
    requires { STATUS_END ≤ length text.now }
    ensures begin { STATUS_END ≤ result }
    ensures within { result ≤ length text.now }
    ensures reason { IsReason (slice_range text.now STATUS_END result) }
    ensures only { (reason : List ℕ) (end : LineEnd) (rest : List ℕ) → IsReason reason
        → drop STATUS_END text.now ≡ reason ++ (print_end end ++ rest)
        → (slice_range text.now STATUS_END result ≡ reason)
        × (drop result text.now ≡ print_end end ++ rest) }
{
    if text.len() == STATUS_END || text[STATUS_END] != b' ' {
        return STATUS_END;
    }
    phrase_end(text, STATUS_END + 1)
}

fn phrase_end(text: &[u8], start: usize) -> usize
    requires { start ≤ length text.now }
    ensures run { IsRunAt is_byte_of_phrase text.now start result }
{
    let mut end = start;
    while end < text.len() && is_phrase_byte(text[end]) {
        end += 1;
    }
    end
}

fn is_phrase_byte(byte: u8) -> bool
    ensures test { result ≡ is_byte_of_phrase byte }
{
    byte != b'\r' && byte != b'\n'
}
