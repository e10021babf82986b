//! Cuts lines and words off a text, and decodes digits.

ghost use Rattle.std.specs.Prelude.{◌≡◌, ◌≢◌, ◌≤◌, ◌<◌, ◌∷◌, ◌++◌, [], List, ℕ, length, take, false, Some, IfSome};
ghost use Rattle.std.specs.Bool.{MatchBool};
ghost use Rattle.std.specs.List.{list_any};
ghost use Rattle.hex.specs.Hex.{IsBytes, encode_lower};
ghost use Rattle.satip_audit.specs.Cuts.{IsCut, is_byte};

use memchr::memchr;

/// Tells whether two texts are the same, byte for byte.
pub fn same_bytes(a: &[u8], b: &[u8]) -> bool
    ensures same { MatchBool result (a.now ≡ b.now) (a.now ≢ b.now) }
{
    a == b
}

// Returns the place of the first byte `at`.
fn place_of(text: &[u8], at: u8) -> Option<usize>
    ensures within { IfSome result (λ place. place < length text.now) }
    ensures finds { (piece rest : List ℕ) → list_any (is_byte at) piece ≡ false
        → text.now ≡ piece ++ at ∷ rest → result ≡ Some (length piece) }
{
    memchr(at, text)
}

/// Returns the text before the first byte `at`, and the text after it, or None if it has no such
/// byte.
pub(crate) fn cut(text: &[u8], at: u8) -> Option<(&[u8], &[u8])>
    ensures finds { (piece rest : List ℕ) → list_any (is_byte at) piece ≡ false
        → text.now ≡ piece ++ at ∷ rest → IsCut result piece rest }
{
    let Some(place) = place_of(text, at) else {
        return None;
    };
    let (piece, rest) = text.split_at(place);
    Some((piece, rest.split_at(1).1))
}

/// Returns the first line with the LF that ends it, and the text after it, or None if there is no
/// LF.
pub fn cut_line(text: &[u8]) -> Option<(&[u8], &[u8])>
    ensures whole { IfSome result (λ r. text.now ≡ r.0.now ++ r.1.now) }
    ensures shorter { IfSome result (λ r. length r.1.now < length text.now) }
    ensures finds { (body rest : List ℕ) → list_any (is_byte 10) body ≡ false
        → text.now ≡ (body ++ 10 ∷ []) ++ rest → IsCut result (body ++ 10 ∷ []) rest }
{
    let Some(place) = place_of(text, b'\n') else {
        return None;
    };
    let (line, rest) = text.split_at(place + 1);
    Some((line, rest))
}

/// Decodes digits into the front of `room`, and returns the count of their bytes. Returns None if
/// they are no digits, or have more bytes than there is room for.
pub(crate) fn decode(digits: &[u8], room: &mut [u8]) -> Option<usize>
    ensures within { IfSome result (λ count. count ≤ length room.new) }
    ensures finds { (bytes : List ℕ) → IsBytes bytes → length bytes ≤ length room.old
        → digits.now ≡ encode_lower bytes → result ≡ Some (length bytes) }
    ensures bytes { (bytes : List ℕ) → IsBytes bytes → length bytes ≤ length room.old
        → digits.now ≡ encode_lower bytes → take (length bytes) room.new ≡ bytes }
{
    let count = digits.len() / 2;
    if count > room.len() {
        return None;
    }
    match hex::decode_to_slice(digits, &mut room[..count]) {
        Ok(()) => Some(count),
        Err(_) => None,
    }
}
