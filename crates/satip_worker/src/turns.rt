//! One event of a connection: it is executed, its datagrams leave, and its reply is sent.

ghost use Rattle.std.specs.Prelude.{◌≡◌, ◌∷◌, [], true, false};
ghost use Rattle.satip_plain.specs.declared.events.Event.{Event};
ghost use Rattle.satip_plain.specs.declared.answers.Answer.{Answer};
ghost use Rattle.satip_plain.specs.Calls.{Cause};
ghost use Rattle.satip_worker.specs.Ends.{end_of};
ghost use Rattle.satip_worker.specs.Making.{MakesEvent};
ghost use Rattle.satip_worker.specs.Progress.{staged};

use satip_base::Out;
use satip_plain::{Answer, Event, Service, ServiceFault};
use satip_world::{ConnEnd, Outlet, post_all};

/// The outcome of an event with a reply.
#[derive(Clone, Copy, Debug, PartialEq, Eq)]
pub(crate) enum Turn {
    /// Its reply was sent.
    Sent,
    /// A prefix of its reply was sent.
    Lost,
    /// The event has no entry.
    Unmade(ServiceFault),
}

/// The outcome of hearing some bytes.
#[derive(Clone, Copy, Debug, PartialEq, Eq)]
pub(crate) enum Heard {
    /// All whole messages were answered.
    All,
    /// The last reply was a closing one.
    Closed,
    /// A send failed.
    Lost,
    /// An event has no entry.
    Unmade(ServiceFault),
}

/// Returns the end of a connection if an event has no entry.
pub(crate) fn end_of(fault: ServiceFault) -> ConnEnd
    ensures end { result ≡ end_of fault }
{
    match fault {
        ServiceFault::Spent => ConnEnd::Spent,
        ServiceFault::Want => ConnEnd::Want,
    }
}

/// Executes an event and sends its datagrams, with the outlet's lock held.
pub(crate) fn make<S: Service, O: Outlet>(
    service: &mut S,
    event: &Event,
    out: &mut Out,
    outlet: &mut O,
) -> Result<Answer, ServiceFault>
    requires free { (O.outbox outlet.old).held ≡ false }
    ensures free { (O.outbox outlet.new).held ≡ false }
    ensures same { S.same service.old service.new }
    ensures makes { MakesEvent O.tells
        (staged S.may_want S.known O.outbox service.old outlet.old)
        (staged S.may_want S.known O.outbox service.new outlet.new)
        event.now out.new result }
{
    outlet.lock();
    let made = call_and_post(service, event, out, outlet);
    outlet.unlock();
    made
}

// Executes an event and sends its datagrams.
fn call_and_post<S: Service, O: Outlet>(
    service: &mut S,
    event: &Event,
    out: &mut Out,
    outlet: &mut O,
) -> Result<Answer, ServiceFault>
    requires held { (O.outbox outlet.old).held ≡ true }
    ensures same { S.same service.old service.new }
    ensures makes { MakesEvent O.tells
        (staged S.may_want S.known O.outbox service.old outlet.old)
        (staged S.may_want S.known O.outbox service.new outlet.new)
        event.now out.new result }
{
    match service.call(event, out) {
        Ok(answer) => {
            post_all(out, outlet);
            Ok(answer)
        }
        Err(fault) => Err(fault),
    }
}
