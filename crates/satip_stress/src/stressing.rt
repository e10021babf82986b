//! `stress`: writes the six counts of a run of generated events.

ghost use Rattle.std.specs.Prelude.{◌≤◌};
ghost use Rattle.satip_stress.specs.Ends.{StressRuns, stressed};

use crate::running::count_events;
use satip_base::{Put, Sink, Strip};
use satip_config::Outcome;
use std::alloc::Global;

/// The most events of a run after the opening ones.
pub const MOST_EVENTS: u32 = 1000000;

/// Runs generated events on a private server and writes six counts, a line each: events, RTSP
/// replies, those whose status isn't 200, RTP datagrams, transport packets in them, and reports.
/// Two clients create and join a stream. After that each of `count` words of the ChaCha8 generator
/// of the seed is one event. All memory is taken before anything is written, and no list of the
/// events is kept. It always returns. For the generator see docs/PROTOCOL.md, Stress runs.
pub fn stress<O: Sink>(alloc: Global, seed: u64, count: u32, output: &mut O) -> Outcome
    requires few { count ≤ 1000000 }
    // The six lines were written, or a prefix of them, or nothing.
    ensures ends { StressRuns O.tells
        (O.drain output.old) (O.drain output.new)
        (stressed seed count) result }
{
    let Ok(counts) = count_events(alloc, seed, count) else {
        return Outcome::OutOfMemory;
    };
    let mut text = Strip::new();
    counts.print(&mut text);
    match output.put(text.bytes()) {
        Put::Whole => Outcome::Done,
        Put::Failed => Outcome::OutputFault,
    }
}
