//! The work of each job, over a service.

ghost use Rattle.std.specs.Prelude.{◌≡◌, false};
ghost use Rattle.satip_desk.specs.Views.{worker_view};
ghost use Rattle.satip_serve.specs.Deeds.{job_state, play_view, beat_view, WorkerDid, PumpDid, TickerDid};

use crate::end::{tell_job, tell_worker};
use satip_base::Out;
use satip_desk::WorkerKit;
use satip_jobs::ServeEnd;
use satip_plain::Service;
use satip_pump::{Batch, play_recordings, submit_ticks};
use satip_worker::{Room, run_worker};
use satip_world::{Clock, Doors, MuxStore, Outlet, Pacer};
use std::sync::Wait;

// Does the work of a worker; its number is the stream of its draws.
pub(crate) fn work<R: Wait + Sync, S: Service, D: Doors, O: Outlet, P: Pacer>(
    rt: &R,
    service: &mut S,
    kit: &mut WorkerKit<D, O, P>,
    number: u16,
    room: &mut Room,
) -> ServeEnd
    requires free { (O.outbox kit.old.outlet).held ≡ false }
    ensures same { S.same service.old service.new }
    ensures did { S.may_want service.old ≡ false
        → WorkerDid D.Conn.tells O.tells D.by_limit number
        (job_state (worker_view D.hall O.outbox kit.old) (S.known service.old))
        (job_state (worker_view D.hall O.outbox kit.new) (S.known service.new)) result }
{
    let end = run_worker(rt, service, kit, number as u64, room);
    tell_worker(end)
}

/// Does the work of the pump of the front end with this number. Blocks.
pub fn pump<R: Wait + Sync, S: Service, M: MuxStore, O: Outlet, P: Pacer>(
    rt: &R,
    service: &mut S,
    number: u16,
    store: &mut M,
    outlet: &mut O,
    pacer: &mut P,
    out: &mut Out,
    batch: &mut Batch,
) -> ServeEnd
    requires free { (O.outbox outlet.old).held ≡ false }
    ensures same { S.same service.old service.new }
    ensures did { S.may_want service.old ≡ false
        → PumpDid O.tells number
        (job_state (play_view M.shelf O.outbox store.old outlet.old) (S.known service.old))
        (job_state (play_view M.shelf O.outbox store.new outlet.new) (S.known service.new))
        result }
{
    let end = play_recordings(rt, service, number, store, outlet, pacer, out, batch);
    tell_job(end)
}

/// Does the work of the ticker. Blocks.
pub fn tick<R: Wait + Sync, S: Service, C: Clock, O: Outlet, P: Pacer>(
    rt: &R,
    service: &mut S,
    clock: &mut C,
    outlet: &mut O,
    pacer: &mut P,
    out: &mut Out,
) -> ServeEnd
    requires free { (O.outbox outlet.old).held ≡ false }
    ensures same { S.same service.old service.new }
    ensures did { S.may_want service.old ≡ false
        → TickerDid O.tells
        (job_state (beat_view C.dial O.outbox clock.old outlet.old) (S.known service.old))
        (job_state (beat_view C.dial O.outbox clock.new outlet.new) (S.known service.new))
        result }
{
    let end = submit_ticks(rt, service, clock, outlet, pacer, out);
    tell_job(end)
}
