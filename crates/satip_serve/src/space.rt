//! The memory that all jobs take.

ghost use Rattle.std.specs.Prelude.{◌≡◌, ◌≤◌, [], length, vec_capacity, IfOk};

use crate::seat::PumpRoom;
use satip_base::{Out, Want, with_room};
use satip_desk::{Devices, PumpKit, WorkerKit};
use satip_jobs::Space;
use satip_pump::Batch;
use satip_worker::Room;
use std::alloc::Global;

/// The memory of workers, pumps and the ticker.
pub type ServeSpace<X, K> = Space<
    X,
    WorkerKit<<K as Devices>::Doors, <K as Devices>::Outlet, <K as Devices>::Pacer>,
    Room,
    PumpKit<<K as Devices>::Store, <K as Devices>::Outlet, <K as Devices>::Pacer>,
    PumpRoom,
    Out,
>;

fn make_rooms(alloc: Global, count: usize) -> Result<Vec<Room>, Want>
    ensures count { IfOk result (λ rooms. length rooms.items ≡ count) }
{
    let mut rooms = with_room(alloc, count)?;
    while rooms.len() < count {
        rooms.push_reserved(Room::make(alloc)?);
    }
    Ok(rooms)
}

/// Returns the rooms of `count` pumps, or `Want` if memory was refused.
pub fn make_pump_rooms(alloc: Global, count: usize) -> Result<Vec<PumpRoom>, Want>
    ensures count { IfOk result (λ rooms. length rooms.items ≡ count) }
{
    let mut rooms = with_room(alloc, count)?;
    while rooms.len() < count {
        let out = Out::make(alloc)?;
        let batch = Batch::make(alloc)?;
        rooms.push_reserved(PumpRoom { out, batch });
    }
    Ok(rooms)
}

/// Returns the gears of `count` callers, if a gear is nothing, or `Want` if memory was refused.
pub fn make_gears(alloc: Global, count: usize) -> Result<Vec<()>, Want>
    ensures count { IfOk result (λ gears. length gears.items ≡ count) }
{
    let mut gears = with_room(alloc, count)?;
    while gears.len() < count {
        gears.push_reserved(());
    }
    Ok(gears)
}

/// Takes the memory of all workers and pumps, apart from their kits and gears. Returns `Want` if it
/// was refused.
pub fn take_space<X: Drop, K: Devices>(
    alloc: Global,
    workers: usize,
    pumps: usize,
) -> Result<ServeSpace<X, K>, Want>
    ensures worker_rooms { IfOk result (λ space. length space.worker_rooms.items ≡ workers) }
    ensures workers { IfOk result (λ space. space.workers.items ≡ []) }
    ensures worker_space { IfOk result (λ space. workers ≤ vec_capacity space.workers) }
    ensures pump_rooms { IfOk result (λ space. length space.pump_rooms.items ≡ pumps) }
    ensures pumps { IfOk result (λ space. space.pumps.items ≡ []) }
    ensures pump_space { IfOk result (λ space. pumps ≤ vec_capacity space.pumps) }
{
    Ok(Space {
        workers: with_room(alloc, workers)?,
        pumps: with_room(alloc, pumps)?,
        ticker_room: Out::make(alloc)?,
        stop_out: Out::make(alloc)?,
        pump_rooms: make_pump_rooms(alloc, pumps)?,
        worker_rooms: make_rooms(alloc, workers)?,
    })
}
