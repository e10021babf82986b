//! The bytes that are written of a catcher's items, and the lines of its gaps.

ghost use Rattle.std.specs.Prelude.{◌≡◌, ◌+◌, ◌<◌, ◌≤◌, ◌∷◌, [], false, length};
ghost use Rattle.satip_base.specs.Streams.{Puts};
ghost use Rattle.satip_rtp_receiver.specs.Runs.{all_items, drained};
ghost use Rattle.satip_rtp_receiver.specs.Catching.{Rests};
ghost use Rattle.satip_recorder.specs.Tapes.{PutsPackets, TapesAs, Tells, deck, gap_line, is_muted};

use satip_base::{Put, Sink, Strip};
use satip_rtp_receiver::{Catcher, Item};

/// The number of bytes still to be written, and whether a line couldn't be logged: then no further
/// one is.
#[derive(Clone, Copy, Debug, PartialEq, Eq)]
pub(crate) struct Tape {
    pub(crate) left: usize,
    pub(crate) muted: bool,
}

/// Hands up the items of a catcher and writes them, while bytes are still to be written.
pub(crate) fn put_items<O: Sink, E: Sink>(
    catcher: &mut Catcher,
    tape: &mut Tape,
    output: &mut O,
    errors: &mut E,
) -> Put
    requires number { catcher.old.next < 65536 }
    requires unfinished { catcher.old.finished ≡ false }
    ensures tapes { TapesAs O.tells E.tells
        (deck tape.old (O.drain output.old) (E.drain errors.old))
        (deck tape.new (O.drain output.new) (E.drain errors.new))
        (all_items catcher.old) result }
    ensures drained { result ≡ Put.Whole → 0 < tape.new.left
        → catcher.new ≡ drained catcher.old }
    ensures rests { result ≡ Put.Whole → 0 < tape.new.left → Rests catcher.new }
{
    'items: while tape.left > 0 {
        let Some(item) = catcher.next() else {
            return Put::Whole;
        };
        match put_item(&item, tape, output, errors) {
            Put::Whole => {}
            Put::Failed => return Put::Failed,
        }
    }
    Put::Whole
}

// Writes packets, or logs a gap.
fn put_item<O: Sink, E: Sink>(item: &Item, tape: &mut Tape, output: &mut O, errors: &mut E) -> Put
    requires some { 0 < tape.old.left }
    ensures tapes { TapesAs O.tells E.tells
        (deck tape.old (O.drain output.old) (E.drain errors.old))
        (deck tape.new (O.drain output.new) (E.drain errors.new))
        (item.now ∷ []) result }
{
    match item {
        Item::Data { number: _, packets } => put_packets(packets.bytes(), tape, output),
        Item::Gap { from, count } => {
            tell_gap(*from, *count, tape, errors);
            Put::Whole
        }
    }
}

// Writes bytes, at most those still to be written.
fn put_packets<O: Sink>(bytes: &[u8], tape: &mut Tape, output: &mut O) -> Put
    ensures puts { PutsPackets O.tells (O.drain output.old) (O.drain output.new)
        tape.old tape.new bytes.now result }
{
    let count = bytes.len().min(tape.left);
    match output.put(&bytes[..count]) {
        Put::Whole => {
            tape.left -= count;
            Put::Whole
        }
        Put::Failed => Put::Failed,
    }
}

// Logs a gap.
#[tactic(auto, unfolding(crate::specs::Tapes::gap_line), using(crate::proofs::LineLemmas::line_room))]
fn tell_gap<E: Sink>(from: u16, count: u32, tape: &mut Tape, errors: &mut E)
    ensures left { tape.new.left ≡ tape.old.left }
    ensures tells { Tells E.tells (E.drain errors.old) (E.drain errors.new)
        (gap_line from count) tape.old.muted tape.new.muted }
{
    let mut line = Strip::new();
    line.write(b"gap ");
    line.write_number(from as u64);
    line.write(b" ");
    line.write_number(count as u64);
    line.write(b"\n");
    tell(line.bytes(), tape, errors);
}

/// Logs a line, unless an earlier one couldn't be logged.
pub(crate) fn tell<E: Sink>(line: &[u8], tape: &mut Tape, errors: &mut E)
    ensures left { tape.new.left ≡ tape.old.left }
    ensures tells { Tells E.tells (E.drain errors.old) (E.drain errors.new)
        line.now tape.old.muted tape.new.muted }
{
    if tape.muted {
        return;
    }
    tape.muted = is_failed(errors.put(line));
}

fn is_failed(put: Put) -> bool
    ensures failed { result ≡ is_muted put }
{
    match put {
        Put::Whole => false,
        Put::Failed => true,
    }
}
