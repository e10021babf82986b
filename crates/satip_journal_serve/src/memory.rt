//! The memory of jobs with journals.

ghost use Rattle.std.specs.Prelude.{◌≡◌, ◌+◌, ◌<◌, ◌^◌, length, vec_capacity, IfOk};
ghost use Rattle.satip_journal_serve.specs.Memories.{IsRoomFor};

use satip_base::{Want, with_room};
use satip_desk::{Devices, JobSink};
use satip_entry_writer::LineRoom;
use satip_journal::{Journal, JournalGear};
use satip_serve::{ServeSpace, take_space};
use std::alloc::Global;
use std::sync::Wait;

/// The memory of all jobs besides their kits, the room for a line of each, and lists with memory
/// for the parts of their journals.
#[derive(Drop)]
pub(crate) struct Memory<V, S> {
    pub space: V,
    pub lines: Vec<LineRoom>,
    pub worker_gears: Vec<JournalGear<S>>,
    pub pump_gears: Vec<JournalGear<S>>,
}

fn make_lines(alloc: Global, count: usize) -> Result<Vec<LineRoom>, Want>
    ensures count { IfOk result (λ lines. length lines.items ≡ count) }
{
    let mut lines = with_room(alloc, count)?;
    while lines.len() < count {
        lines.push_reserved(LineRoom::make(alloc)?);
    }
    Ok(lines)
}

// Takes all memory for this number of workers and pumps, and for the ticker and caller 0.
pub(crate) fn take_memory<'a, R: Wait + Sync, K: Devices, S: JobSink + Drop>(
    alloc: Global,
    workers: usize,
    pumps: usize,
) -> Result<Memory<ServeSpace<Journal<'a, R, S>, K>, S>, Want>
    requires few_workers { workers < 2 ^ 32 }
    requires few_pumps { pumps < 2 ^ 32 }
    ensures workers { IfOk result (λ memory. IsRoomFor workers memory.space.worker_rooms.items
        memory.space.workers.items (vec_capacity memory.space.workers) memory.worker_gears.items
        (vec_capacity memory.worker_gears)) }
    ensures pumps { IfOk result (λ memory. IsRoomFor pumps memory.space.pump_rooms.items
        memory.space.pumps.items (vec_capacity memory.space.pumps) memory.pump_gears.items
        (vec_capacity memory.pump_gears)) }
    ensures lines { IfOk result (λ memory. length memory.lines.items ≡ workers + pumps + 2) }
{
    Ok(Memory {
        worker_gears: with_room(alloc, workers)?,
        pump_gears: with_room(alloc, pumps)?,
        lines: make_lines(alloc, workers + pumps + 2)?,
        space: take_space::<Journal<'a, R, S>, K>(alloc, workers, pumps)?,
    })
}
