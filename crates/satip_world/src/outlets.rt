//! Outlets: they send datagrams (RFC 3550 over UDP).

ghost use Rattle.std.specs.Prelude.{◌≡◌, ◌<◌, ◌∷◌, [], length, true, IsSomeAnd, slice_get};
ghost use Rattle.satip_world.specs.Deliveries.{Delivers};

use satip_base::{Address, Out, Put};

/// A sender of datagrams.
pub trait Outlet {
    ghost use Rattle.std.specs.Prelude.{true, false};
    ghost use Rattle.satip_world.specs.Outboxes.{Outbox, Posts, locked, unlocked};

    // The fact under which the content is exposed: it holds always or never.
    ghost tells: { Type 0 };

    // The datagrams sent, the count of failed sends, and whether it holds the lock.
    ghost outbox: { Self → Outbox };

    /// Begins an event. Other outlets of the same socket wait in their `lock` until `unlock`. An
    /// outlet with a separate socket has none to wait for.
    fn lock(&mut self)
        requires free { (outbox self.old).held ≡ false }
        ensures locked { outbox self.new ≡ locked (outbox self.old) };

    /// Ends the event that `lock` began, after its datagrams were sent. Does nothing if no event
    /// was begun.
    fn unlock(&mut self)
        ensures unlocked { outbox self.new ≡ unlocked (outbox self.old) };

    /// Sends a datagram of an event that `lock` began.
    fn send(&mut self, to: Address, bytes: &[u8]) -> Put
        requires held { (outbox self.old).held ≡ true }
        ensures posts { Posts tells (outbox self.old) (outbox self.new) to bytes.now result };
}

/// Sends the datagrams of an event, in order. Leaves out those that can't be sent.
pub fn post_all<O: Outlet>(out: &Out, outlet: &mut O)
    requires held { (O.outbox outlet.old).held ≡ true }
    ensures held { (O.outbox outlet.new).held ≡ true }
    ensures delivers { Delivers O.tells (O.outbox outlet.old) (O.outbox outlet.new)
        out.now.datagrams }
{
    for place in 0..out.count() {
        post_one(out, place, outlet);
    }
}

// Sends the datagram at a place.
fn post_one<O: Outlet>(out: &Out, place: usize, outlet: &mut O)
    requires within { place < length out.now.datagrams }
    requires held { (O.outbox outlet.old).held ≡ true }
    ensures held { (O.outbox outlet.new).held ≡ true }
    ensures delivers { IsSomeAnd (slice_get out.now.datagrams place)
        (λ datagram. Delivers O.tells (O.outbox outlet.old) (O.outbox outlet.new) (datagram ∷ [])) }
{
    match out.datagram(place) {
        Some((to, bytes)) => {
            outlet.send(to, bytes);
        }
        None => unreachable!(),
    }
}
