//! Jobs at their seats, over any service.

ghost use Rattle.std.specs.Prelude.{◌≡◌, false};
ghost use Rattle.satip_desk.specs.Views.{worker_view, pump_view, tick_view};
ghost use Rattle.satip_serve.specs.Deeds.{job_state, WorkerDid, PumpDid, TickerDid};

use crate::work::{pump, tick, work};
use satip_base::Out;
use satip_desk::{PumpKit, TickKit, WorkerKit};
use satip_jobs::Seat;
use satip_plain::Service;
use satip_pump::Batch;
use satip_worker::Room;
use satip_world::{Clock, Doors, MuxStore, Outlet, Pacer};
use std::sync::Wait;

/// The memory that a pump works in.
#[derive(Drop)]
pub struct PumpRoom {
    pub out: Out,
    pub batch: Batch,
}

/// Does the work of a worker; its number is the stream of its draws. Blocks.
pub fn work_seat<R: Wait + Sync, X: Service, D: Doors, O: Outlet, P: Pacer>(
    rt: &R,
    seat: &mut Seat<X, WorkerKit<D, O, P>, Room>,
)
    ensures same { X.same seat.old.caller seat.new.caller }
    ensures number { seat.new.number ≡ seat.old.number }
    ensures did { X.may_want seat.old.caller ≡ false
        → WorkerDid D.Conn.tells O.tells D.by_limit seat.old.number
        (job_state (worker_view D.hall O.outbox seat.old.kit) (X.known seat.old.caller))
        (job_state (worker_view D.hall O.outbox seat.new.kit) (X.known seat.new.caller))
        seat.new.end }
{
    // The job begins with the outlet's lock free.
    seat.kit.outlet.unlock();
    let end = work(
        rt,
        &mut seat.caller,
        &mut seat.kit,
        seat.number,
        &mut seat.room,
    );
    seat.end = end;
}

/// Does the work of the pump of the front end with the seat's number. Blocks.
pub fn pump_seat<R: Wait + Sync, X: Service, M: MuxStore, O: Outlet, P: Pacer>(
    rt: &R,
    seat: &mut Seat<X, PumpKit<M, O, P>, PumpRoom>,
)
    ensures same { X.same seat.old.caller seat.new.caller }
    ensures number { seat.new.number ≡ seat.old.number }
    ensures did { X.may_want seat.old.caller ≡ false
        → PumpDid O.tells seat.old.number
        (job_state (pump_view M.shelf O.outbox seat.old.kit) (X.known seat.old.caller))
        (job_state (pump_view M.shelf O.outbox seat.new.kit) (X.known seat.new.caller))
        seat.new.end }
{
    // The job begins with the outlet's lock free.
    seat.kit.outlet.unlock();
    let end = pump(
        rt,
        &mut seat.caller,
        seat.number,
        &mut seat.kit.store,
        &mut seat.kit.outlet,
        &mut seat.kit.pacer,
        &mut seat.room.out,
        &mut seat.room.batch,
    );
    seat.end = end;
}

/// Does the work of the ticker. Blocks.
pub fn tick_seat<R: Wait + Sync, X: Service, C: Clock, O: Outlet, P: Pacer>(
    rt: &R,
    seat: &mut Seat<X, TickKit<C, O, P>, Out>,
)
    ensures same { X.same seat.old.caller seat.new.caller }
    ensures number { seat.new.number ≡ seat.old.number }
    ensures did { X.may_want seat.old.caller ≡ false
        → TickerDid O.tells
        (job_state (tick_view C.dial O.outbox seat.old.kit) (X.known seat.old.caller))
        (job_state (tick_view C.dial O.outbox seat.new.kit) (X.known seat.new.caller))
        seat.new.end }
{
    // The job begins with the outlet's lock free.
    seat.kit.outlet.unlock();
    let end = tick(
        rt,
        &mut seat.caller,
        &mut seat.kit.clock,
        &mut seat.kit.outlet,
        &mut seat.kit.pacer,
        &mut seat.room,
    );
    seat.end = end;
}
