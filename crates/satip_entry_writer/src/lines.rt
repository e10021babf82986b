//! The lines of journals.

ghost use Rattle.std.specs.Prelude.{◌≡◌, ◌<◌, ℕ, length};
ghost use Rattle.satip_base.specs.History.{entry};
ghost use Rattle.satip_entry_writer.specs.Entries.{IsTyped};
ghost use Rattle.satip_entry_writer.specs.Lines.{entry_line, start_line};

use crate::records::encode_record;
use crate::room::LineRoom;
use satip_base::Out;
use satip_plain::{Answer, Event, known_event};

/// Writes the line of an entry instead of an older line: `entry`, its place in the history, the
/// number of its caller, and its record in lower-case hexadecimal digits. It takes no memory.
#[tactic(auto, using(crate::proofs::Bounds::line_steps), unfolding(crate::specs::Lines::entry_line))]
pub fn write_entry(
    place: u64,
    caller: u64,
    event: &Event,
    answer: &Answer,
    out: &Out,
    line: &mut LineRoom,
)
    ensures line { line.new.text ≡ entry_line place caller event.now answer.now out.now.reply
        out.now.datagrams }
    ensures short { length line.new.text < 800000 }

    // the values of the entry are of their types
    ensures typed { (n : ℕ) → IsTyped (entry n event.now answer.now out.now) }
{
    known_event(event);
    let _count = out.count();
    line.clear();
    line.write(b"entry ");
    line.write_number(place);
    line.write(b" ");
    line.write_number(caller);
    line.write(b" ");
    encode_record(event, *answer, out, line);
    line.end();
}

/// Writes the line of the moment at which a history starts, in milliseconds, instead of an older
/// line. It takes no memory.
#[tactic(auto, using(crate::proofs::Bounds::line_steps), unfolding(crate::specs::Lines::start_line))]
pub fn write_start(now: u64, line: &mut LineRoom)
    ensures line { line.new.text ≡ start_line now }
{
    line.clear();
    line.write(b"start ");
    line.write_number(now);
    line.end();
}
