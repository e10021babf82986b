//! Cuts texts into pieces. The end of a piece is searched for many bytes at a time.
ghost use Rattle.std.specs.Prelude.{◌≡◌, ◌∷◌, ◌<◌, length, position, IfSome};
ghost use Rattle.std.specs.List.{slice_split};
ghost use Rattle.satip_tune.specs.Pieces.{is_byte, pieces_left};

use memchr::memchr;

fn place_of(text: &[u8], at: u8) -> Option<usize>
    ensures found { result ≡ position (is_byte at) text.now }
{
    memchr(at, text)
}

/// Returns the text up to the first byte `at`, and the rest after that byte. The rest is None if
/// the text has no such byte.
pub(crate) fn cut(text: &[u8], at: u8) -> (&[u8], Option<&[u8]>)
    ensures pieces { slice_split (is_byte at) text.now ≡ result.0.now ∷ pieces_left at result.1 }
    ensures shorter { IfSome result.1 (λ rest. length rest.now < length text.now) }
{
    match place_of(text, at) {
        None => (text, None),
        Some(place) => {
            let (piece, rest) = text.split_at(place);
            (piece, Some(rest.split_at(1).1))
        }
    }
}
