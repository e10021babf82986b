//! Words of 64 bits, as sets of numbers below 64.
ghost use Rattle.std.specs.Prelude.{◌≡◌, ◌≢◌, ◌<◌, ◌≤◌, ℕ, if◌then◌else◌};
ghost use Rattle.std.specs.Int.{bit_at};
ghost use Rattle.satip_flow.specs.Bits.{IsNextBit};

/// The number of bits of a word.
pub(crate) const BITS: usize = 64;

/// Returns the least bit from `from` on that is set; 64 if there is none.
pub(crate) fn next_bit(word: u64, from: usize) -> usize
    requires from { from ≤ 64 }
    ensures next { IsNextBit word from result }
{
    if from == BITS {
        return BITS;
    }
    let rest = word >> from;
    if rest == 0 {
        return BITS;
    }
    from + rest.trailing_zeros() as usize
}

/// Returns the word with one bit set or cleared.
pub(crate) fn with_bit(word: u64, place: u16, is_set: bool) -> u64
    requires place { place < 64 }
    ensures bit { bit_at result place ≡ (if is_set then 1 else 0) }
    ensures others { (other : ℕ) → other < 64 → other ≢ place
        → bit_at result other ≡ bit_at word other }
{
    if is_set {
        word | 1 << place
    } else {
        word & !(1 << place)
    }
}
