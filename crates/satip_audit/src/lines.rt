//! Reads the lines of journals. A line is read leniently, written again, and compared. So leading
//! zeros, upper case and CR are wrong.

ghost use Rattle.std.specs.Prelude.{◌≡◌, ◌<◌, ◌≤◌, ◌^◌, ◌++◌, ◌∷◌, ℕ, List, length, take, decimal, false, Some, IfSome, IsNone, IsSomeAnd};
ghost use Rattle.std.specs.List.{list_any};
ghost use Rattle.satip_entry_writer.specs.Lines.{start_line};
ghost use Rattle.satip_entry_writer.specs.Records.{record_text};
ghost use Rattle.satip_audit.specs.Cuts.{is_byte, words_line};
ghost use Rattle.satip_audit.specs.Journals.{IsPlaced, Placed as PlacedEntry, placed, placed_line};

use crate::cutting::{cut, decode, same_bytes};
use satip_base::{Out, read_number};
use satip_entry_reader::read_record;
use satip_entry_writer::{LineRoom, write_entry, write_start};
use satip_plain::{Answer, Event};

/// The content of an entry's line, without the event, the reply and the datagrams, and the length
/// of its record.
#[derive(Clone, Copy, Debug, PartialEq, Eq, Drop)]
pub struct Found {
    /// The entry's place in the history.
    pub place: u64,
    /// The number of the caller.
    pub caller: u64,
    /// The answer.
    pub answer: Answer,
    /// The length of the record in bytes.
    pub len: usize,
}

// Reads a number with a space after it. Returns the rest of the text with it.
fn number_word(text: &[u8]) -> Option<(u64, &[u8])>
    ensures finds { (number : ℕ) (rest : List ℕ) → number < 2 ^ 64
        → text.now ≡ decimal number ++ 32 ∷ rest
        → IsSomeAnd result (λ r. (r.0 ≡ number) × (r.1.now ≡ rest)) }
{
    let Some((digits, rest)) = cut(text, b' ') else {
        return None;
    };
    let Some(number) = read_number(digits, u64::MAX) else {
        return None;
    };
    Some((number, rest))
}

// Reads the number between a space and the end of a line.
fn start_word(line: &[u8]) -> Option<u64>
    ensures finds { (now : ℕ) → now < 2 ^ 64 → line.now ≡ start_line now → result ≡ Some now }
{
    let Some((_kind, rest)) = cut(line, b' ') else {
        return None;
    };
    let Some((digits, _end)) = cut(rest, b'\n') else {
        return None;
    };
    read_number(digits, u64::MAX)
}

// Reads the two numbers after a word. Returns with them the text between them and the end of the
// line.
fn entry_words(line: &[u8]) -> Option<(u64, u64, &[u8])>
    ensures finds { (place caller : ℕ) (digits : List ℕ) → place < 2 ^ 64 → caller < 2 ^ 64
        → list_any (is_byte 10) digits ≡ false → line.now ≡ words_line place caller digits
        → IsSomeAnd result (λ r. (r.0 ≡ place) × (r.1 ≡ caller) × (r.2.now ≡ digits)) }
{
    let Some((_kind, behind_kind)) = cut(line, b' ') else {
        return None;
    };
    let Some((place, behind_place)) = number_word(behind_kind) else {
        return None;
    };
    let Some((caller, behind_caller)) = number_word(behind_place) else {
        return None;
    };
    let Some((digits, _end)) = cut(behind_caller, b'\n') else {
        return None;
    };
    Some((place, caller, digits))
}

/// Returns the moment of a start line, or None if the line is no start line.
pub fn read_start(line: &[u8], room: &mut LineRoom) -> Option<u64>
    ensures right { IfSome result (λ now. line.now ≡ start_line now) }
    ensures within { IfSome result (λ now. now < 2 ^ 64) }
    ensures none { IsNone result → (now : ℕ) → now < 2 ^ 64 → line.now ≡ start_line now → ⊥ }
{
    let Some(now) = start_word(line) else {
        return None;
    };
    write_start(now, room);
    if !same_bytes(room.bytes(), line) {
        return None;
    }
    Some(now)
}

/// Returns the content of an entry's line. Writes its event over `event`, and its reply and its
/// datagrams into `out`. Returns None if the line is no entry's. The record is decoded into the front of `record_room`.
pub fn read_entry(
    line: &[u8],
    event: &mut Event,
    out: &mut Out,
    room: &mut LineRoom,
    record_room: &mut [u8],
) -> Option<Found>
    requires room { length record_room.old ≡ 400000 }
    ensures right { IfSome result (λ f. line.now ≡ placed_line
        (placed f.place f.caller event.new f.answer out.new)) }
    ensures within { IfSome result (λ f. IsPlaced
        (placed f.place f.caller event.new f.answer out.new)) }
    ensures none { IsNone result → (p : PlacedEntry) → IsPlaced p → line.now ≡ placed_line p → ⊥ }
    ensures front { IfSome result (λ f. take f.len record_room.new
        ≡ record_text event.new f.answer out.new.reply out.new.datagrams) }
    ensures len { IfSome result (λ f. f.len ≤ length record_room.new) }
    ensures fits { IfSome result (λ f. f.len ≤ length line.now) }
{
    let Some((place, caller, digits)) = entry_words(line) else {
        return None;
    };
    let Some(count) = decode(digits, record_room) else {
        return None;
    };
    let bytes = &record_room[..count];
    let Some(answer) = read_record(bytes, event, out) else {
        return None;
    };
    write_entry(place, caller, event, &answer, out, room);
    if !same_bytes(room.bytes(), line) {
        return None;
    }
    Some(Found {
        place,
        caller,
        answer,
        len: count,
    })
}
