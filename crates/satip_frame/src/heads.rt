//! The head of a message: its end, and the places of its first line and its headers.
ghost use Rattle.std.specs.Prelude.{◌≡◌, ℕ, ◌+◌, ◌-◌, ◌<◌, ◌≤◌, List, ◌++◌, length, take, drop, map, min, All, IfSome, IfNone, IsSomeAnd, IsTrue, []};
ghost use Rattle.std.specs.Char.{is_ascii_graphic};
ghost use Rattle.httparse.specs.Ascii.{space};
ghost use Rattle.httparse.specs.Grammar.{Field, LineEnd, print_end, is_token_byte, ReadsSection};
ghost use Rattle.httparse.specs.Pieces.{Begins, IsRunAt, Word};
ghost use Rattle.httparse.specs.Spans.{span_bytes, IsHeaderWithin, IsSectionAt};
ghost use Rattle.satip_frame.specs.Said.{Said};
ghost use Rattle.satip_frame.specs.Head.{ends_in_empty_line, HasNoEmptyLine, IsHeadEnd, IsGoodHead};
ghost use Rattle.satip_frame.specs.Places.{IsLineAt, IsLineWithin, Line, LastWord, said_at};

use crate::said::body_length;
use httparse::spans::{HeaderSpan, Span, parse_headers_from};
use httparse::{Status, is_method_token};
use memchr::memchr;

/// The most bytes of a head.
pub(crate) const HEAD_LIMIT: usize = 8192;

/// The most headers of a message.
pub(crate) const HEADER_LIMIT: usize = 64;

const VERSION_LIMIT: usize = 16;

/// The places of the words of a first line in its head, and the end of that line.
#[derive(Clone, Copy)]
pub(crate) struct FirstLine {
    pub method: Span,
    pub target: Span,
    pub version: Span,
    pub end: usize,
}

/// A head that was read: its first line, the number of its headers, and the number of bytes of its
/// body.
#[derive(Clone, Copy)]
pub(crate) struct HeadRead {
    pub line: FirstLine,
    pub headers: usize,
    pub body: u64,
}

/// Returns the length of the head that the text begins with, if it is complete. No head ends in the
/// first `looked` bytes, and these aren't looked at again.
#[tactic(auto, using(crate::proofs::HeadEndLemmas::no_line_at))]
pub(crate) fn head_end(text: &[u8], looked: usize) -> Option<usize>
    requires looked { HasNoEmptyLine looked text.now }
    ensures found { IfSome result (IsHeadEnd text.now) }
    ensures none { IfNone result (HasNoEmptyLine (min HEAD_LIMIT (length text.now)) text.now) }
{
    let limit = text.len().min(HEAD_LIMIT);
    let mut at = looked;
    while at < limit {
        at = next_line(text, at, limit);
        if ends_in_empty_line(&text[..at]) {
            return Some(at);
        }
    }
    None
}

// Returns the place after the first LF from `at` on and below `limit`; `limit` if there is none.
fn next_line(text: &[u8], at: usize, limit: usize) -> usize
    requires ordered { at < limit }
    requires within { limit ≤ length text.now }
    requires looked { HasNoEmptyLine at text.now }
    ensures on { (at < result) × (result ≤ limit) }
    ensures none { HasNoEmptyLine (result - 1) text.now }
{
    match memchr(b'\n', &text[at..limit]) {
        Some(step) => at + step + 1,
        None => limit,
    }
}

fn ends_in_empty_line(text: &[u8]) -> bool
    ensures test { result ≡ ends_in_empty_line text.now }
{
    text.ends_with(b"\n\n") || text.ends_with(b"\n\r\n")
}

/// Reads the bytes as one whole head. `None` if they aren't one.
pub(crate) fn read_head(head: &[u8], headers: &mut [HeaderSpan]) -> Option<HeadRead>
    requires { length headers.old ≡ HEADER_LIMIT }
    ensures within { IfSome result (λ read. IsLineWithin (length head.now) read.line) }
    ensures counted { IfSome result (λ read. read.headers ≤ HEADER_LIMIT) }
    ensures headers_within { IfSome result
        (λ read. All (IsHeaderWithin (length head.now)) (take read.headers headers.new)) }
    ensures found { IfSome result (λ read. IsGoodHead head.now
        (said_at head.now read.line (take read.headers headers.new)) read.body) }
    ensures none { IfNone result ((m : Said) (n : ℕ) → IsGoodHead head.now m n → ⊥) }
{
    let Some(line) = read_first_line(head) else {
        return None;
    };
    let Some(count) = read_block(head, line.end, headers) else {
        return None;
    };
    let Some(body) = body_length(head, &headers[..count]) else {
        return None;
    };
    Some(HeadRead {
        line,
        headers: count,
        body,
    })
}

// Reads the header block from `start` to the end of the head, and returns the number of its
// headers.
fn read_block(head: &[u8], start: usize, headers: &mut [HeaderSpan]) -> Option<usize>
    requires { start ≤ length head.now }
    ensures counted { IfSome result (λ count. count ≤ length headers.old) }
    ensures within { IfSome result
        (λ count. All (IsHeaderWithin (length head.now)) (take count headers.new)) }
    ensures found { IfSome result (λ count. (fields : List Field) × (last : LineEnd)
        × IsSectionAt head.now start headers.new (length head.now) count fields last) }
    ensures only { (fields : List Field) (last : LineEnd)
        → ReadsSection (drop start head.now) fields last [] → length fields ≤ length headers.old
        → IsSomeAnd result (λ count.
        IsSectionAt head.now start headers.new (length head.now) count fields last) }
{
    match parse_headers_from(head, start, headers) {
        Ok(Status::Complete((end, count))) => {
            if end == head.len() {
                return Some(count);
            }
            None
        }
        Ok(Status::Partial) => None,
        Err(_) => None,
    }
}

fn read_first_line(head: &[u8]) -> Option<FirstLine>
    ensures found { IfSome result (IsLineAt head.now) }
    ensures none { IfNone result (Begins Line head.now → ⊥) }
{
    let Some(method) = read_method(head) else {
        return None;
    };
    let Some(target) = read_target(head, method.end + 1) else {
        return None;
    };
    let Some((version, end)) = read_version(head, target.end + 1) else {
        return None;
    };
    Some(FirstLine {
        method,
        target,
        version,
        end,
    })
}

fn read_method(head: &[u8]) -> Option<Span>
    ensures within { IfSome result
        (λ word. (word.start ≡ 0) × (word.start ≤ word.end) × (word.end < length head.now)) }
    ensures found { IfSome result (λ word. Word is_token_byte space (span_bytes head.now word)
        head.now (drop (word.end + 1) head.now)) }
    ensures none { IfNone result (Begins (Word is_token_byte space) head.now → ⊥) }
{
    let end = token_end(head);
    if end == head.len() || head[end] != b' ' || end == 0 {
        return None;
    }
    Some(Span { start: 0, end })
}

fn read_target(head: &[u8], start: usize) -> Option<Span>
    requires { start ≤ length head.now }
    ensures within { IfSome result
        (λ word. (word.start ≡ start) × (word.start ≤ word.end) × (word.end < length head.now)) }
    ensures found { IfSome result (λ word. Word is_ascii_graphic space (span_bytes head.now word)
        (drop start head.now) (drop (word.end + 1) head.now)) }
    ensures none { IfNone result (Begins (Word is_ascii_graphic space) (drop start head.now) → ⊥) }
{
    let end = visible_end(head, start);
    if end == head.len() || head[end] != b' ' || end == start {
        return None;
    }
    Some(Span { start, end })
}

fn read_version(head: &[u8], start: usize) -> Option<(Span, usize)>
    requires { start ≤ length head.now }
    ensures within { IfSome result (λ word. (word.0.start ≡ start) × (word.0.start ≤ word.0.end)
        × (word.0.end ≤ length head.now) × (word.1 ≤ length head.now)) }
    ensures found { IfSome result (λ word. (line_end : LineEnd)
        × LastWord (span_bytes head.now word.0, line_end)
        (drop start head.now) (drop word.1 head.now)) }
    ensures none { IfNone result (Begins LastWord (drop start head.now) → ⊥) }
{
    let end = visible_end(head, start);
    if end == start || end - start > VERSION_LIMIT {
        return None;
    }
    let Some(next) = read_line_end(head, end) else {
        return None;
    };
    Some((Span { start, end }, next))
}

/// Returns the place after the line end at `at`, which is LF or CR LF; `None` if there is none at
/// `at`.
pub fn read_line_end(head: &[u8], at: usize) -> Option<usize>
    requires { at ≤ length head.now }
    ensures within { IfSome result (λ next. next ≤ length head.now) }
    ensures found { IfSome result (λ next. (line_end : LineEnd)
        × (drop at head.now ≡ print_end line_end ++ drop next head.now)) }
    ensures none { IfNone result ((line_end : LineEnd) (rest : List ℕ)
        → drop at head.now ≡ print_end line_end ++ rest → ⊥) }
{
    if at == head.len() {
        return None;
    }
    if head[at] == b'\n' {
        return Some(at + 1);
    }
    if head[at] == b'\r' && at + 1 < head.len() && head[at + 1] == b'\n' {
        return Some(at + 2);
    }
    None
}

fn token_end(head: &[u8]) -> usize
    ensures run { IsRunAt is_token_byte head.now 0 result }
{
    let mut end = 0;
    while end < head.len() && is_method_token(head[end]) {
        end += 1;
    }
    end
}

fn visible_end(head: &[u8], start: usize) -> usize
    requires { start ≤ length head.now }
    ensures run { IsRunAt is_ascii_graphic head.now start result }
{
    let mut end = start;
    while end < head.len() && head[end].is_ascii_graphic() {
        end += 1;
    }
    end
}
