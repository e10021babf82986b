//! Reads the words of a line, and the values of single words.
ghost use Rattle.std.specs.Prelude.{◌≡◌, option_map};
ghost use Rattle.std.specs.Option.{option_copied};
ghost use Rattle.satip_tune.specs.Pieces.{pieces_left};
ghost use Rattle.satip_script.specs.Lines.{one_word_of, two_words_of};
ghost use Rattle.std.specs.Int.{from_be_bytes, w16, w32};
ghost use Rattle.satip_script.specs.Parts.{draw_of};
ghost use Rattle.satip_ts.specs.Digits.{sized_bytes};
ghost use Rattle.satip_script.specs.Inner.{pair_now, AreTwoAndRest};

use crate::pieces::cut;
use satip_base::Draw;

const SPACE: u8 = b' ';

/// Returns the word, if the rest of a line is one word.
#[tactic(auto, using(crate::proofs::WordLemmas::word_counts), unfolding(crate::specs::Lines::one_word_of))]
pub(crate) fn one_word<'a>(rest: Option<&'a [u8]>) -> Option<&'a [u8]>
    ensures word { option_copied result ≡ one_word_of (pieces_left 32 rest.entry) }
{
    let Some(rest) = rest else {
        return None;
    };
    let (first, None) = cut(rest, SPACE) else {
        return None;
    };
    Some(first)
}

/// Returns the two words, if the rest of a line is two words.
#[tactic(auto, using(crate::proofs::WordLemmas::word_counts), unfolding(crate::specs::Lines::two_words_of))]
pub(crate) fn two_words<'a>(rest: Option<&'a [u8]>) -> Option<(&'a [u8], &'a [u8])>
    ensures words { pair_now result ≡ two_words_of (pieces_left 32 rest.entry) }
{
    let Some(rest) = rest else {
        return None;
    };
    let (first, Some(rest)) = cut(rest, SPACE) else {
        return None;
    };
    let (second, None) = cut(rest, SPACE) else {
        return None;
    };
    Some((first, second))
}

/// Returns the first two words of the rest of a line, and all that follows them, with any spaces in
/// it. Returns None if nothing follows them.
#[tactic(auto, unfolding(crate::specs::Lines::three_words_of))]
pub(crate) fn two_words_and_rest<'a>(
    rest: Option<&'a [u8]>,
) -> Option<(&'a [u8], &'a [u8], &'a [u8])>
    ensures words { AreTwoAndRest (pieces_left 32 rest.entry) result }
{
    let Some(rest) = rest else {
        return None;
    };
    let (first, Some(rest)) = cut(rest, SPACE) else {
        return None;
    };
    let (second, Some(rest)) = cut(rest, SPACE) else {
        return None;
    };
    Some((first, second, rest))
}

/// Reads a draw of 20 digits: 8 of its word, 8 of its SSRC, 4 of its first sequence number.
#[tactic(auto, unfolding(crate::specs::Parts::draw_of))]
pub(crate) fn read_draw(digits: &[u8]) -> Option<Draw>
    ensures draw { result ≡ draw_of digits.now }
{
    if digits.len() != 20 {
        return None;
    }
    let (word, rest) = digits.split_at(8);
    let (ssrc, first) = rest.split_at(8);
    let Some(word) = read_u32(word) else {
        return None;
    };
    let Some(ssrc) = read_u32(ssrc) else {
        return None;
    };
    let Some(first) = read_u16(first) else {
        return None;
    };
    Some(Draw { word, ssrc, first })
}

fn read_u32(digits: &[u8]) -> Option<u32>
    ensures value { result ≡ option_map (from_be_bytes w32) (sized_bytes 4 digits.now) }
{
    let mut bytes = [0u8; 4];
    match hex::decode_to_slice(digits, &mut bytes) {
        Ok(()) => Some(u32::from_be_bytes(bytes)),
        Err(_) => None,
    }
}

fn read_u16(digits: &[u8]) -> Option<u16>
    ensures value { result ≡ option_map (from_be_bytes w16) (sized_bytes 2 digits.now) }
{
    let mut bytes = [0u8; 2];
    match hex::decode_to_slice(digits, &mut bytes) {
        Ok(()) => Some(u16::from_be_bytes(bytes)),
        Err(_) => None,
    }
}
