//! The jobs of a tunnel at their seats.

ghost use Rattle.std.specs.Prelude.{◌≡◌, false};
ghost use Rattle.satip_desk.specs.Views.{worker_view, pump_view, tick_view};
ghost use Rattle.satip_serve.specs.Deeds.{job_state};
ghost use Rattle.satip_tunnel.specs.Seats.{seated};
ghost use Rattle.satip_tunnel_serve.specs.Deeds.{SilentPumpDid, SilentTickerDid, WorkedAtSeat, doors_tell};

use crate::end::tell_worker;
use satip_base::Out;
use satip_desk::{PumpKit, TickKit, WorkerKit};
use satip_interleave::TunnelCaller;
use satip_jobs::Seat;
use satip_plain::Service;
use satip_serve::{PumpRoom, pump, tick};
use satip_tunnel::{Silent, WorkerRoom, run_tunnel_worker};
use satip_world::{Clock, Doors, MuxStore, Outlet, Pacer};
use std::sync::Wait;

// Does the work of a worker; its number is the stream of its draws. Blocks.
pub(crate) fn work_at_seat<'a, R: Wait + Sync, D: Doors, O: Outlet, P: Pacer>(
    seat: &mut Seat<TunnelCaller<'a, R>, WorkerKit<D, O, P>, WorkerRoom>,
)
    ensures did { WorkedAtSeat (doors_tell D.Conn.tells D.by_limit) seat.old.number seat.new.number
        (worker_view D.hall O.outbox seat.old.kit)
        (seated seat.old.caller.server.now seat.old.caller.pass)
        (worker_view D.hall O.outbox seat.new.kit)
        (seated seat.new.caller.server.now seat.new.caller.pass) seat.new.end }
{
    let end = run_tunnel_worker(
        &mut seat.caller,
        &mut seat.kit,
        seat.number as u64,
        &mut seat.room,
    );
    seat.end = tell_worker(end);
}

// Does the work of the pump of the front end with the seat's number, and sends no datagram: each
// went to a lane. The kit's outlet isn't used. Blocks.
pub(crate) fn pump_at_seat<R: Wait + Sync, X: Service, M: MuxStore, O: Outlet, P: Pacer>(
    rt: &R,
    seat: &mut Seat<X, PumpKit<M, O, P>, PumpRoom>,
)
    ensures same { X.same seat.old.caller seat.new.caller }
    ensures number { seat.new.number ≡ seat.old.number }
    ensures did { X.may_want seat.old.caller ≡ false
        → SilentPumpDid seat.old.number
        (job_state (pump_view M.shelf O.outbox seat.old.kit) (X.known seat.old.caller))
        (job_state (pump_view M.shelf O.outbox seat.new.kit) (X.known seat.new.caller))
        seat.new.end }
{
    let mut silence = Silent::make();
    let end = pump(
        rt,
        &mut seat.caller,
        seat.number,
        &mut seat.kit.store,
        &mut silence,
        &mut seat.kit.pacer,
        &mut seat.room.out,
        &mut seat.room.batch,
    );
    seat.end = end;
}

// Does the work of the ticker, and sends no datagram: each went to a lane. The kit's outlet isn't
// used. Blocks.
pub(crate) fn tick_at_seat<R: Wait + Sync, X: Service, C: Clock, O: Outlet, P: Pacer>(
    rt: &R,
    seat: &mut Seat<X, TickKit<C, O, P>, Out>,
)
    ensures same { X.same seat.old.caller seat.new.caller }
    ensures number { seat.new.number ≡ seat.old.number }
    ensures did { X.may_want seat.old.caller ≡ false
        → SilentTickerDid
        (job_state (tick_view C.dial O.outbox seat.old.kit) (X.known seat.old.caller))
        (job_state (tick_view C.dial O.outbox seat.new.kit) (X.known seat.new.caller))
        seat.new.end }
{
    let mut silent = Silent::make();
    let end = tick(
        rt,
        &mut seat.caller,
        &mut seat.kit.clock,
        &mut silent,
        &mut seat.kit.pacer,
        &mut seat.room,
    );
    seat.end = end;
}
