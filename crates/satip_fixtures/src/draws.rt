//! Pseudo-random words, the same in each run.

/// The first draw of a sequence.
pub const FIRST_DRAW: u32 = 2463534242;

/// Returns the draw after this one: a linear congruential generator (Numerical Recipes).
pub fn next_draw(draw: u32) -> u32 {
    draw.wrapping_mul(1664525).wrapping_add(1013904223)
}

/// Returns the word after this one: a linear congruential generator (Knuth's MMIX).
pub fn next_word(word: u64) -> u64 {
    word.wrapping_mul(6364136223846793005)
        .wrapping_add(1442695040888963407)
}
