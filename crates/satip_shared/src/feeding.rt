//! Feeds a burst of the cell with the events of a lot.
ghost use Rattle.std.specs.Prelude.{◌≡◌, refl};

use satip_base::Out;
use satip_core::Server;
use satip_plain::{Answer, Event, Lot};
use satip_turn::Feed;

/// A lot that feeds a burst.
#[derive(Drop)]
pub(crate) struct Feeding<'a, L: Lot> {
    pub lot: &'a mut L,
}

impl<'a, L: Lot> Feed<Server> for Feeding<'a, L> {
    ghost given = { λ f. L.given f.lot.now };

    ghost ended = { λ f. L.ended f.lot.now };

    // and the lot is still the same
    ghost has_taken = { λ f g ts. (g.lot.ghost_name ≡ f.lot.ghost_name)
        × L.has_taken f.lot.now g.lot.now ts };

    ghost took_last = { λ f o. L.took_last f.lot.now o };

    ghost none_taken = { λ f. (refl, L.none_taken f.lot.now) };

    fn next(&mut self, event: &mut Event) -> bool {
        self.lot.next(event)
    }

    fn took(&mut self, answer: &Answer, out: &Out) {
        self.lot.took(answer, out);
    }
}
