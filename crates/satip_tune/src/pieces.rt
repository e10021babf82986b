//! Texts compared and split.

ghost use Rattle.std.specs.Prelude.{◌≡◌, ◌<◌, ◌∷◌, length, position, IfSome};
ghost use Rattle.std.specs.Str.{bytes_eq};
ghost use Rattle.std.specs.List.{after_first, before_first, slice_split};
ghost use Rattle.satip_tune.specs.Pieces.{is_byte, pieces_left, text_left};

/// Returns whether two texts are the same, byte for byte.
pub fn same_bytes(a: &[u8], b: &[u8]) -> bool
    ensures same { result ≡ bytes_eq a.now b.now }
{
    a == b
}

fn place_of(text: &[u8], at: u8) -> Option<usize>
    ensures found { result ≡ position (is_byte at) text.now }
{
    text.iter().position(|byte| *byte == at)
}

/// Splits the text at the first byte `at`, which is in neither part; the second is None if there is
/// no such byte.
pub fn cut(text: &[u8], at: u8) -> (&[u8], Option<&[u8]>)
    ensures pieces { slice_split (is_byte at) text.now ≡ result.0.now ∷ pieces_left at result.1 }
    ensures before { result.0.now ≡ before_first (is_byte at) text.now }
    ensures after { text_left result.1 ≡ after_first (is_byte at) text.now }
    ensures shorter { IfSome result.1 (λ rest. length rest.now < length text.now) }
{
    match place_of(text, at) {
        None => (text, None),
        Some(place) => {
            let (piece, rest) = text.split_at(place);
            (piece, Some(rest.split_at(1).1))
        }
    }
}
