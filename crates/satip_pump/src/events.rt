//! One event of a job.
ghost use Rattle.std.specs.Prelude.{◌≡◌, true, false};
ghost use Rattle.satip_pump.specs.Events.{Makes};

use satip_base::Out;
use satip_plain::{Answer, Event, Service, ServiceFault};
use satip_world::{Outlet, post_all};

/// Executes an event and sends its datagrams, with the outlet's lock held.
pub(crate) fn make_event<S: Service, O: Outlet>(
    service: &mut S,
    outlet: &mut O,
    event: &Event,
    out: &mut Out,
) -> Result<Answer, ServiceFault>
    requires free { (O.outbox outlet.old).held ≡ false }
    ensures free { (O.outbox outlet.new).held ≡ false }
    ensures same { S.same service.old service.new }
    ensures makes { Makes (S.may_want service.old) (S.known service.old) (S.known service.new)
        O.tells (O.outbox outlet.old) (O.outbox outlet.new) event.now result }
{
    outlet.lock();
    let made = call_and_post(service, outlet, event, out);
    outlet.unlock();
    made
}

// Executes an event and sends its datagrams.
fn call_and_post<S: Service, O: Outlet>(
    service: &mut S,
    outlet: &mut O,
    event: &Event,
    out: &mut Out,
) -> Result<Answer, ServiceFault>
    requires held { (O.outbox outlet.old).held ≡ true }
    ensures same { S.same service.old service.new }
    ensures makes { Makes (S.may_want service.old) (S.known service.old) (S.known service.new)
        O.tells (O.outbox outlet.old) (O.outbox outlet.new) event.now result }
{
    match service.call(event, out) {
        Ok(answer) => {
            post_all(out, outlet);
            Ok(answer)
        }
        Err(fault) => Err(fault),
    }
}
