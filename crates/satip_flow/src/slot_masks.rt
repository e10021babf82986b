//! The slots of subscribers that select a packet: a word for each front end and PID, with a bit for
//! each slot.
ghost use Rattle.std.specs.Prelude.{◌≡◌, ◌+◌, ◌<◌, ◌≤◌, ◌↔◌, ℕ, true, vec_len, length, IfOk, IsTrue, if◌then◌else◌};
ghost use Rattle.std.specs.Int.{bit_at};
ghost use Rattle.satip_pids.specs.Pids.{has_pid};
ghost use Rattle.satip_flow.specs.Subscription.{is_at};
ghost use Rattle.satip_flow.specs.Subscriptions.{IsFrontOrNone};
ghost use Rattle.satip_flow.specs.Rows.{bit, marks, rewritten, with_slots, IsGroup, IsRewritten, KeepsSlots, NoneMarked, SamePids, Shows};

use crate::bits::BITS;
use satip_base::Want;
use satip_base::limits::FRONTS;
use satip_pids::PidSet;
use std::alloc::Global;

/// The number of words of a front end: one for each PID.
const PIDS: usize = 8192;

/// The number of words of a set of PIDs, which has a bit for each.
const WORDS: usize = 128;

/// Returns words in which no slot is marked. `Want` is out of memory.
pub(crate) fn make_rows(alloc: Global) -> Result<Vec<u64>, Want>
    ensures count { IfOk result (λ rows. vec_len rows ≡ 131072) }
    ensures unmarked { IfOk result (λ rows. NoneMarked rows.items) }
{
    match vec![in alloc; 0; FRONTS * PIDS] {
        Ok(rows) => Ok(rows),
        Err(_) => Err(Want),
    }
}

/// Returns the marked slots of a front end and a PID; none if there is no such front end.
pub(crate) fn slots_of(rows: &[u64], front: u16, pid: u16) -> u64
    requires count { length rows.now ≡ 131072 }
    requires pid { pid < 8192 }
    ensures slots { result ≡ marks rows.now front pid }
{
    if front == 0 || front as usize > FRONTS {
        return 0;
    }
    rows[PIDS * (front as usize - 1) + pid as usize]
}

/// Returns whether no slot is marked anywhere.
pub(crate) fn are_unmarked(rows: &[u64]) -> bool
    ensures unmarked { IsTrue result ↔ NoneMarked rows.now }
{
    for row in rows {
        if *row != 0 {
            return false;
        }
    }
    true
}

/// Returns the slots that a change writes together with `slot`: of those `left`, all that are known
/// to be alike if it is, else it alone.
pub(crate) fn group_of(left: u64, alike: u64, slot: u16) -> u64
    requires slot { slot < 64 }
    requires left { bit_at left slot ≡ 1 }
    ensures group { IsGroup result left alike slot }
{
    if (alike >> slot) % 2 == 1 {
        left & alike
    } else {
        1 << slot
    }
}

/// Marks these slots for another front end or other PIDs. All of them are marked for `own` and
/// `old` before. It writes only the words that differ.
pub(crate) fn remark(
    rows: &mut [u64],
    slots: u64,
    own: Option<u16>,
    old: &PidSet,
    front: Option<u16>,
    pids: &PidSet,
)
    requires count { length rows.old ≡ 131072 }
    requires own { IsFrontOrNone own }
    requires front { IsFrontOrNone front }
    requires shown { Shows rows.old slots own old.now }
    ensures shown { Shows rows.new slots front pids.now }
    ensures others { KeepsSlots slots rows.old rows.new }
    ensures count { length rows.new ≡ 131072 }
{
    if own == front {
        remark_at(rows, slots, front, old, pids);
        return;
    }
    let none = PidSet::new();
    remark_at(rows, slots, own, old, &none);
    remark_at(rows, slots, front, &none, pids);
}

// Writes the words of a front end whose PIDs are in one set and not in the other.
fn remark_at(rows: &mut [u64], slots: u64, front: Option<u16>, old: &PidSet, pids: &PidSet)
    requires count { length rows.old ≡ 131072 }
    requires front { IsFrontOrNone front }
    ensures written { (at pid : ℕ) → pid < 8192 → marks rows.new at pid
        ≡ (if is_at at front
        then rewritten slots (bit (has_pid old.now pid)) (bit (has_pid pids.now pid))
        (marks rows.old at pid) else marks rows.old at pid) }
    ensures count { length rows.new ≡ 131072 }
{
    if let Some(front) = front {
        remark_front(rows, PIDS * (front as usize - 1), slots, old, pids);
    }
}

// The same for the words from `start` on.
fn remark_front(rows: &mut [u64], start: usize, slots: u64, old: &PidSet, pids: &PidSet)
    requires within { start + 8192 ≤ length rows.old }
    ensures written { IsRewritten 8192 start slots
        (λ pid. bit (has_pid old.now pid)) (λ pid. bit (has_pid pids.now pid)) rows.old rows.new }
    ensures count { length rows.new ≡ length rows.old }
{
    for at in 0..WORDS {
        remark_words(rows, start + BITS * at, slots, old.word(at), pids.word(at));
    }
}

// The same for 64 words, by the bits of two words.
fn remark_words(rows: &mut [u64], start: usize, slots: u64, old: u64, new: u64)
    requires within { start + 64 ≤ length rows.old }
    ensures written { IsRewritten 64 start slots
        (λ i. bit_at old i) (λ i. bit_at new i) rows.old rows.new }
    ensures count { length rows.new ≡ length rows.old }
{
    if old == new {
        return;
    }
    for at in 0..BITS {
        remark_word(rows, start + at, slots, (old >> at) % 2, (new >> at) % 2);
    }
}

// The same for one word.
fn remark_word(rows: &mut [u64], at: usize, slots: u64, was: u64, is: u64)
    requires within { at < length rows.old }
    ensures written { IsRewritten 1 at slots (λ i. was) (λ i. is) rows.old rows.new }
    ensures count { length rows.new ≡ length rows.old }
{
    if was != is {
        rows[at] = with_slots(rows[at], slots, is == 1);
    }
}

/// Returns whether two sets select the same PIDs.
pub(crate) fn has_same(a: &PidSet, b: &PidSet) -> bool
    ensures same { result ≡ true → SamePids a.now b.now }
{
    for at in 0..WORDS {
        if a.word(at) != b.word(at) {
            return false;
        }
    }
    true
}

/// Returns the word with the bits of these slots set or cleared.
pub(crate) fn with_slots(word: u64, slots: u64, is_set: bool) -> u64
    ensures written { result ≡ with_slots slots is_set word }
{
    if is_set { word | slots } else { word & !slots }
}
