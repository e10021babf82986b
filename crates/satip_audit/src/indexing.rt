//! One pass over the lines of journals.

ghost use Rattle.std.specs.Prelude.{◌≡◌, ◌<◌, ◌^◌, length, IfOk, IfErr, IfSome, IsNone};
ghost use Rattle.satip_audit.specs.Checks.{IsWrong, Says};
ghost use Rattle.satip_audit.specs.Indexes.{AddsLine, IsFaultOf, IsIndex};

use crate::cutting::cut_line;
use crate::index::Spot;
use crate::journals::{Index, JournalFault, Starts};
use crate::lines::{read_entry, read_start};
use satip_base::{Out, Want};
use satip_entry_writer::LineRoom;
use satip_plain::Event;
use std::alloc::Global;

const RECORD: usize = 400000;

// The content of a line: the moment of the start, or an entry's place and the length of its record.
#[derive(Clone, Copy, Debug, PartialEq, Eq, Drop)]
enum Said {
    Start(u64),
    Entry(u64, u32),
}

/// Indexes journals, and writes each entry's record over the front of its line. Returns the number
/// of the first wrong line, from 1, if there is one. A line ends with LF, the last one too. It takes
/// memory for one entry and its line, and 16 bytes an entry.
pub fn index_journals(alloc: Global, text: &mut [u8]) -> Result<Index, JournalFault>
    requires short { length text.old < 2 ^ 32 }
    ensures index { IfOk result (λ i. IsIndex text.old text.new i.starts i.spots.items) }
    ensures fault { IfErr result (IsFaultOf text.old) }
{
    let Ok(mut out) = Out::make(alloc) else {
        return Err(JournalFault::OutOfMemory);
    };
    let Ok(mut room) = LineRoom::make(alloc) else {
        return Err(JournalFault::OutOfMemory);
    };
    let Ok(mut record_room) = vec![in alloc; 0; RECORD] else {
        return Err(JournalFault::OutOfMemory);
    };
    index_lines(alloc, text, &mut out, &mut room, &mut record_room)
}

fn index_lines(
    alloc: Global,
    text: &mut [u8],
    out: &mut Out,
    room: &mut LineRoom,
    record_room: &mut [u8],
) -> Result<Index, JournalFault>
    requires room { length record_room.old ≡ 400000 }
    requires short { length text.old < 2 ^ 32 }
    ensures index { IfOk result (λ i. IsIndex text.old text.new i.starts i.spots.items) }
    ensures fault { IfErr result (IsFaultOf text.old) }
{
    let mut index = Index {
        starts: Starts::Missing,
        spots: Vec::new(alloc),
    };
    let mut event = Event::Stop;
    let mut at = 0;
    let mut number: u64 = 1;
    'lines: while at < text.len() {
        let Some((line, _behind)) = cut_line(text.split_at(at).1) else {
            return Err(JournalFault::WrongLine(number));
        };
        let end = at + line.len();
        let line = &mut text[at..end];
        let Some(said) = read_line(line, &mut event, out, room, record_room) else {
            return Err(JournalFault::WrongLine(number));
        };
        let Ok(()) = add_line(&mut index, said, at as u32) else {
            return Err(JournalFault::OutOfMemory);
        };
        at = end;
        number += 1;
    }
    Ok(index)
}

// Returns the content of a line, or None if it is wrong. Writes an entry's event over `event`, and
// its record over the front of the line.
fn read_line(
    line: &mut [u8],
    event: &mut Event,
    out: &mut Out,
    room: &mut LineRoom,
    record_room: &mut [u8],
) -> Option<Said>
    requires room { length record_room.old ≡ 400000 }
    ensures says { IfSome result (Says line.old line.new) }
    ensures size { length line.new ≡ length line.old }
    ensures wrong { IsNone result → IsWrong line.old }
{
    if let Some(now) = read_start(line, room) {
        return Some(Said::Start(now));
    }
    let Some(found) = read_entry(line, event, out, room, record_room) else {
        return None;
    };
    let len = found.len;
    line[..len].copy_from_slice(&record_room[..len]);
    Some(Said::Entry(found.place, len as u32))
}

// Adds the content of a line to the index. The record of an entry is at `at`.
fn add_line(index: &mut Index, said: Said, at: u32) -> Result<(), Want>
    ensures added { IfOk result (λ u. AddsLine said at
        index.old.starts index.old.spots.items
        index.new.starts index.new.spots.items) }
{
    match said {
        Said::Start(now) => {
            index.starts = index.starts.with(now);
            Ok(())
        }
        Said::Entry(place, len) => {
            if index.spots.push(Spot { place, at, len }).is_err() {
                return Err(Want);
            }
            Ok(())
        }
    }
}
