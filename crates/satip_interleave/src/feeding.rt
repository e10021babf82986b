//! The events of a lot, given to a burst of the shared tunnel.
ghost use Rattle.std.specs.Prelude.{◌≡◌, option_map, refl};
ghost use Rattle.satip_base.specs.Lists.{Each};
ghost use Rattle.satip_interleave.specs.declared.events.TunnelEvent.TheVariants.{Inner};
ghost use Rattle.satip_interleave.specs.Taking.{IsInnerEvent, AreAnswered, inners_taken};

use crate::answers::server_answer;
use crate::events::{TunnelAnswer, TunnelEvent};
use crate::one_tunnel::Tunnel;
use satip_base::Out;
use satip_plain::{Event, Lot};
use satip_turn::Feed;

/// A lot that feeds a burst.
#[derive(Drop)]
pub(crate) struct Feeding<'a, L: Lot> {
    pub lot: &'a mut L,
}

impl<'a, L: Lot> Feed<Tunnel> for Feeding<'a, L> {
    ghost given = { λ f. option_map Inner (L.given f.lot.now) };

    ghost ended = { λ f. L.ended f.lot.now };

    // it still has the same lot, all events are of the server, and the lot has taken them if the
    // server answered each
    ghost has_taken = { λ f g ts. (g.lot.ghost_name ≡ f.lot.ghost_name)
        × Each (λ t. IsInnerEvent t.event) ts
        × (AreAnswered ts → L.has_taken f.lot.now g.lot.now (inners_taken ts)) };

    ghost took_last = { λ f o. L.took_last f.lot.now o };

    ghost none_taken = { λ f. (refl, tt, λ _. L.none_taken f.lot.now) };

    fn next(&mut self, event: &mut TunnelEvent) -> bool {
        match event {
            TunnelEvent::Inner(inner) => self.lot.next(inner),
            _ => {
                let mut inner = Event::Stop;
                let given = self.lot.next(&mut inner);
                *event = TunnelEvent::Inner(inner);
                given
            }
        }
    }

    fn took(&mut self, answer: &TunnelAnswer, out: &Out) {
        self.lot.took(&server_answer(*answer), out);
    }
}
