//! Sets of numbers below 8192 as bits: bit `n % 64` of word `n / 64` is 1 if `n` is in the set.

ghost use Rattle.std.specs.Prelude.{◌≡◌, ◌+◌, ◌*◌, ◌<◌, ◌≤◌, ◌==◌, ◌||◌, ◌&&◌, not, ℕ, [], ◌∷◌, length, All, IfSome, MatchOption};
ghost use Rattle.satip_pids.specs.Rising.{put, put_all, without};
ghost use Rattle.satip_pids.specs.Bits.{has_bit, members, IsListed, HasNoneFrom, IsNextFrom};

/// The number of words that hold a bit for each PID.
pub const WORDS: usize = 128;

/// The most PIDs that a set may list.
const LISTED: usize = 256;

/// Returns whether a PID's bit is set.
pub fn has_bit(words: &[u64], pid: u16) -> bool
    requires size { length words.now ≡ 128 }
    requires below { pid < 8192 }
    ensures is_set { result ≡ has_bit words.now pid }
{
    (words[pid as usize / 64] >> (pid % 64)) & 1 == 1
}

fn set_bit(words: &mut [u64], pid: u16)
    requires size { length words.old ≡ 128 }
    requires below { pid < 8192 }
    ensures bits { (n : ℕ) → has_bit words.new n ≡ (pid == n || has_bit words.old n) }
{
    words[pid as usize / 64] |= 1 << (pid % 64);
}

fn clear_bit(words: &mut [u64], pid: u16)
    requires size { length words.old ≡ 128 }
    requires below { pid < 8192 }
    ensures bits { (n : ℕ) → has_bit words.new n ≡ (has_bit words.old n && not (pid == n)) }
{
    words[pid as usize / 64] &= !(1 << (pid % 64));
}

// Adds a PID to a set of `count`, and returns the new count. None if the set has 256 others.
fn add_one(words: &mut [u64], count: usize, pid: u16) -> Option<usize>
    requires size { length words.old ≡ 128 }
    requires below { pid < 8192 }
    requires listed { IsListed words.old count }
    ensures added { MatchOption result (256 < length (put pid (members words.old)))
        (λ total. members words.new ≡ put pid (members words.old)) }
    ensures listed { IfSome result (IsListed words.new) }
{
    if has_bit(words, pid) {
        return Some(count);
    }
    if count == LISTED {
        return None;
    }
    set_bit(words, pid);
    Some(count + 1)
}

/// Adds the PIDs of a list to a set of `count`, and returns the new count. None if the new count
/// would be over 256; the caller then drops the words.
pub fn add_bits(words: &mut [u64], count: usize, list: &[u16]) -> Option<usize>
    requires size { length words.old ≡ 128 }
    requires below { All (λ pid. pid < 8192) list.now }
    requires listed { IsListed words.old count }
    ensures added { MatchOption result (256 < length (put_all (members words.old) list.now))
        (λ total. members words.new ≡ put_all (members words.old) list.now) }
    ensures listed { IfSome result (IsListed words.new) }
{
    let mut total = count;
    for pid in list {
        let Some(more) = add_one(words, total, *pid) else {
            return None;
        };
        total = more;
    }
    Some(total)
}

// Removes a PID from a set of `count`, and returns the new count.
fn remove_one(words: &mut [u64], count: usize, pid: u16) -> usize
    requires size { length words.old ≡ 128 }
    requires below { pid < 8192 }
    requires listed { IsListed words.old count }
    ensures left { members words.new ≡ without (members words.old) (pid ∷ []) }
    ensures listed { IsListed words.new result }
{
    if !has_bit(words, pid) {
        return count;
    }
    clear_bit(words, pid);
    count - 1
}

/// Removes the PIDs of a list from a set of `count`, and returns the new count.
pub fn remove_bits(words: &mut [u64], count: usize, list: &[u16]) -> usize
    requires size { length words.old ≡ 128 }
    requires below { All (λ pid. pid < 8192) list.now }
    requires listed { IsListed words.old count }
    ensures left { members words.new ≡ without (members words.old) list.now }
    ensures listed { IsListed words.new result }
{
    let mut total = count;
    for pid in list {
        total = remove_one(words, total, *pid);
    }
    total
}

/// Returns the least PID at or above `from` whose bit is set.
pub fn next_bit(words: &[u64], from: u16) -> Option<u16>
    requires size { length words.now ≡ 128 }
    requires within { from ≤ 8192 }
    ensures next { MatchOption result (HasNoneFrom words.now from) (IsNextFrom words.now from) }
{
    let at = from as usize / 64;
    if at == WORDS {
        return None;
    }
    let rest = words[at] >> (from % 64);
    if rest != 0 {
        return Some(from + rest.trailing_zeros() as u16);
    }
    first_bit(words, at + 1)
}

// Returns the least PID whose bit is set in the words at or after `place`.
fn first_bit(words: &[u64], place: usize) -> Option<u16>
    requires size { length words.now ≡ 128 }
    requires within { place ≤ 128 }
    ensures first { MatchOption result (HasNoneFrom words.now (64 * place))
        (IsNextFrom words.now (64 * place)) }
{
    for at in place..WORDS {
        let word = words[at];
        if word != 0 {
            return Some(64 * at as u16 + word.trailing_zeros() as u16);
        }
    }
    None
}
