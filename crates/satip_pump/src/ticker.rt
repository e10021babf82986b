//! The ticker.
ghost use Rattle.std.specs.Prelude.{◌≡◌, true, false};
ghost use Rattle.satip_pump.specs.Pauses.{TickPauses};
ghost use Rattle.satip_pump.specs.TickRuns.{Ticked, TickRun};

use crate::ends::{JobEnd, end_of};
use crate::events::make_event;
use satip_base::Out;
use satip_base::limits::LONGEST_HISTORY;
use satip_desk::TickKit;
use satip_plain::{Answer, Beat, Event, Service};
use satip_world::{Clock, Outlet, Pacer};
use std::sync::Wait;

// Executes a tick. Returns `None` if the service goes on.
fn tick<S: Service, O: Outlet>(
    service: &mut S,
    outlet: &mut O,
    now: u64,
    out: &mut Out,
) -> Option<JobEnd>
    requires free { (O.outbox outlet.old).held ≡ false }
    ensures free { (O.outbox outlet.new).held ≡ false }
    ensures same { S.same service.old service.new }
    ensures ticked { Ticked (S.may_want service.old) (S.known service.old) (S.known service.new)
        O.tells (O.outbox outlet.old) (O.outbox outlet.new) now result }
{
    match make_event(service, outlet, &Event::Tick { now }, out) {
        Ok(Answer::Beat(Beat::Going)) => None,
        Ok(_) => Some(JobEnd::Stopped),
        Err(fault) => Some(end_of(fault)),
    }
}

/// Pauses, reads the clock and submits a tick, again and again, until the service stops. Sends each
/// tick's datagrams. Blocks.
pub fn submit_ticks<R: Wait + Sync, S: Service, C: Clock, O: Outlet, P: Pacer>(
    rt: &R,
    service: &mut S,
    clock: &mut C,
    outlet: &mut O,
    pacer: &mut P,
    out: &mut Out,
) -> JobEnd
    requires free { (O.outbox outlet.old).held ≡ false }
    ensures free { (O.outbox outlet.new).held ≡ false }
    ensures same { S.same service.old service.new }
    ensures run { TickRun (S.known service.old) (S.known service.new) (C.dial clock.old)
        (C.dial clock.new)
        O.tells (O.outbox outlet.old) (O.outbox outlet.new) result }
    ensures pauses { TickPauses (S.known service.old).own (S.known service.new).own
        (P.pauses pacer.old) (P.pauses pacer.new) result }
    ensures spent { result ≡ JobEnd.Spent → (S.known service.new).length ≡ LONGEST_HISTORY }
    ensures want { result ≡ JobEnd.Want → S.may_want service.old ≡ true }
{
    for _ in rt.forever() {
        pacer.pause();
        let now = clock.now();
        if let Some(end) = tick(service, outlet, now, out) {
            return end;
        }
    }
    unreachable!()
}

/// Submits ticks with the devices of a kit, as `submit_ticks` does. Blocks.
pub fn run_ticker<R: Wait + Sync, S: Service, C: Clock, O: Outlet, P: Pacer>(
    rt: &R,
    service: &mut S,
    kit: &mut TickKit<C, O, P>,
    out: &mut Out,
) -> JobEnd
    requires free { (O.outbox kit.old.outlet).held ≡ false }
    ensures free { (O.outbox kit.new.outlet).held ≡ false }
    ensures same { S.same service.old service.new }
    ensures run { TickRun (S.known service.old) (S.known service.new) (C.dial kit.old.clock)
        (C.dial kit.new.clock)
        O.tells (O.outbox kit.old.outlet) (O.outbox kit.new.outlet) result }
    ensures pauses { TickPauses (S.known service.old).own (S.known service.new).own
        (P.pauses kit.old.pacer) (P.pauses kit.new.pacer) result }
    ensures spent { result ≡ JobEnd.Spent → (S.known service.new).length ≡ LONGEST_HISTORY }
    ensures want { result ≡ JobEnd.Want → S.may_want service.old ≡ true }
{
    submit_ticks(
        rt,
        service,
        &mut kit.clock,
        &mut kit.outlet,
        &mut kit.pacer,
        out,
    )
}
