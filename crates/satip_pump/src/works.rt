//! Events that ask for work.
ghost use Rattle.std.specs.Prelude.{◌≡◌, ◌++◌, ◌≤◌, length, true, false};
ghost use Rattle.satip_pump.specs.Loads.{datagrams_left};
ghost use Rattle.satip_world.specs.Deliveries.{Delivers};
ghost use Rattle.satip_pump.specs.Works.{AsksWork, Works, Gave, give_state};

use crate::batch::Batch;
use crate::buffer::Buffer;
use crate::events::make_event;
use crate::lot::{Load, work_of};
use satip_base::Out;
use satip_plain::{Event, Service, ServiceFault, Work};
use satip_world::{Outlet, post_all};
use std::snapshot::Snapshot;

/// Executes an event whose answer names the next work, and sends its datagrams.
pub(crate) fn make_work<S: Service, O: Outlet>(
    service: &mut S,
    outlet: &mut O,
    event: &Event,
    out: &mut Out,
) -> Result<Work, ServiceFault>
    requires asks { AsksWork event.now }
    requires free { (O.outbox outlet.old).held ≡ false }
    ensures free { (O.outbox outlet.new).held ≡ false }
    ensures same { S.same service.old service.new }
    ensures works { Works (S.may_want service.old) (S.known service.old) (S.known service.new)
        O.tells (O.outbox outlet.old) (O.outbox outlet.new) event.now result }
{
    match make_event(service, outlet, event, out) {
        Ok(answer) => Ok(work_of(&answer)),
        Err(fault) => Err(fault),
    }
}

// Sends the datagrams of a batch, and then those of `out`, if some were left there.
fn post_burst<O: Outlet>(batch: &Batch, is_left: bool, out: &Out, outlet: &mut O)
    requires held { (O.outbox outlet.old).held ≡ true }
    ensures delivers { Delivers O.tells (O.outbox outlet.old) (O.outbox outlet.new)
        (batch.now.datagrams ++ datagrams_left is_left out.now) }
{
    batch.post(outlet);
    if is_left {
        post_all(out, outlet);
    }
}

/// Gives the waiting packets in one burst, while the answers name this tune number, the batch has
/// room, and no event has many datagrams. Then sends their datagrams. Holds the outlet's lock
/// meanwhile. Returns the work of the last answer, or `work` if no packet was given.
pub(crate) fn give<S: Service, O: Outlet>(
    service: &mut S,
    outlet: &mut O,
    tuning: (u16, u64),
    work: Work,
    buffer: &mut Buffer,
    room: &mut S::Room,
    out: &mut Out,
    batch: &mut Batch,
) -> Result<Work, ServiceFault>
    requires free { (O.outbox outlet.old).held ≡ false }
    ensures free { (O.outbox outlet.new).held ≡ false }
    ensures same { S.same service.old service.new }
    ensures gave { Gave (S.may_want service.old) O.tells tuning.0 tuning.1 work
        (give_state S.known O.outbox service.old outlet.old buffer.old)
        (give_state S.known O.outbox service.new outlet.new buffer.new) result }
    ensures fewer { length buffer.new.packets ≤ length buffer.old.packets }
{
    outlet.lock();
    batch.clear();
    let mut last = Snapshot::of(out);
    let mut load = Load {
        front: tuning.0,
        tune: tuning.1,
        work,
        given: false,
        ended: false,
        is_left: false,
        last: &mut last,
        buffer,
        batch,
    };
    let made = service.burst(&mut load, room, out);
    let is_left = load.is_left;
    post_burst(load.batch, is_left, out, outlet);
    outlet.unlock();
    match made {
        Ok(()) => Ok(load.work),
        Err(fault) => Err(fault),
    }
}
