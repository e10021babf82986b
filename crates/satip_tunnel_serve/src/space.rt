//! The memory that all jobs of a tunnel take.

ghost use Rattle.std.specs.Prelude.{◌≡◌, ◌≤◌, [], length, vec_capacity, IfOk};
ghost use Rattle.satip_serve.specs.Spaces.{IsSpaceFor};

use crate::run::TunnelSpace;
use satip_base::{Out, Want, with_room};
use satip_desk::Devices;
use satip_jobs::Space;
use satip_serve::{make_gears, make_pump_rooms};
use satip_tunnel::WorkerRoom;
use std::alloc::Global;

/// All memory that the jobs take, apart from their kits.
#[derive(Drop)]
pub(crate) struct Memory<S> {
    pub space: S,
    pub worker_gears: Vec<()>,
    pub pump_gears: Vec<()>,
}

// The memory of the jobs with these devices.
type JobSpace<X, K> = TunnelSpace<
    X,
    <K as Devices>::Doors,
    <K as Devices>::Outlet,
    WorkerRoom,
    <K as Devices>::Pacer,
    <K as Devices>::Store,
>;

fn make_rooms(alloc: Global, count: usize) -> Result<Vec<WorkerRoom>, Want>
    ensures count { IfOk result (λ rooms. length rooms.items ≡ count) }
{
    let mut rooms = with_room(alloc, count)?;
    while rooms.len() < count {
        rooms.push_reserved(WorkerRoom::make(alloc)?);
    }
    Ok(rooms)
}

// Takes the memory for jobs at their seats.
fn take_space<X: Drop, K: Devices>(
    alloc: Global,
    workers: usize,
    pumps: usize,
) -> Result<JobSpace<X, K>, Want>
    ensures worker_rooms { IfOk result (λ space. length space.worker_rooms.items ≡ workers) }
    ensures workers { IfOk result (λ space. space.workers.items ≡ []) }
    ensures worker_space { IfOk result (λ space. workers ≤ vec_capacity space.workers) }
    ensures pump_rooms { IfOk result (λ space. length space.pump_rooms.items ≡ pumps) }
    ensures pumps { IfOk result (λ space. space.pumps.items ≡ []) }
    ensures pump_space { IfOk result (λ space. pumps ≤ vec_capacity space.pumps) }
{
    Ok(Space {
        workers: with_room(alloc, workers)?,
        pumps: with_room(alloc, pumps)?,
        ticker_room: Out::make(alloc)?,
        stop_out: Out::make(alloc)?,
        pump_rooms: make_pump_rooms(alloc, pumps)?,
        worker_rooms: make_rooms(alloc, workers)?,
    })
}

/// Takes the memory for all workers and pumps. Returns `Want` if it was refused.
pub(crate) fn take_memory<X: Drop, K: Devices>(
    alloc: Global,
    workers: usize,
    pumps: usize,
) -> Result<Memory<JobSpace<X, K>>, Want>
    ensures workers { IfOk result (λ memory. IsSpaceFor workers memory.worker_gears.items
        memory.space.worker_rooms.items memory.space.workers.items
        (vec_capacity memory.space.workers)) }
    ensures pumps { IfOk result (λ memory. IsSpaceFor pumps memory.pump_gears.items
        memory.space.pump_rooms.items memory.space.pumps.items
        (vec_capacity memory.space.pumps)) }
{
    Ok(Memory {
        worker_gears: make_gears(alloc, workers)?,
        pump_gears: make_gears(alloc, pumps)?,
        space: take_space::<X, K>(alloc, workers, pumps)?,
    })
}
