//! Texts without the blanks at their ends, and prefixes of texts.
ghost use Rattle.std.specs.Prelude.{◌≡◌, ◌==◌, ◌||◌, length, take, drop};
ghost use Rattle.satip_tune.specs.Pieces.{text_left};
ghost use Rattle.satip_rtsp.specs.Blanks.{is_space_or_tab, text_trimmed, start_trimmed, end_trimmed};
ghost use Rattle.satip_frame.specs.Origins.{is_begun_like};
ghost use Rattle.satip_rtsp.specs.Targets.{is_begun_with};

use satip_frame::first_bytes;
use satip_tune::same_bytes;

/// Returns the text without the spaces and tabs at its ends.
#[tactic(auto, unfolding(crate::specs::Blanks::text_trimmed))]
pub fn trimmed(text: &[u8]) -> &[u8]
    ensures trimmed { result.now ≡ text_trimmed text.now }
{
    trimmed_end(trimmed_start(text))
}

fn trimmed_start(text: &[u8]) -> &[u8]
    ensures trimmed { result.now ≡ start_trimmed text.now }
{
    let mut rest = text;
    while let Some((first, others)) = rest.split_first() {
        if !is_blank(*first) {
            return rest;
        }
        rest = others;
    }
    rest
}

fn trimmed_end(text: &[u8]) -> &[u8]
    ensures trimmed { result.now ≡ end_trimmed text.now }
{
    let mut rest = text;
    while let Some((last, others)) = rest.split_last() {
        if !is_blank(*last) {
            return rest;
        }
        rest = others;
    }
    rest
}

fn is_blank(byte: u8) -> bool
    ensures test { result ≡ is_space_or_tab byte }
{
    byte == b' ' || byte == b'\t'
}

/// Returns whether a text begins with another, byte for byte.
pub fn begins_with(start: &[u8], text: &[u8]) -> bool
    ensures test { result ≡ is_begun_with start.now text.now }
{
    same_bytes(first_bytes(text, start.len()), start)
}

/// Returns the rest of a text; the empty text for `None`.
pub fn text_of(left: Option<&[u8]>) -> &[u8]
    ensures text { result.now ≡ text_left left.entry }
{
    match left {
        None => b"",
        Some(text) => text,
    }
}
