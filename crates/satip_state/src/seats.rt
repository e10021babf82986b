//! Living sessions, each with its slot.

ghost use Rattle.std.specs.Prelude.{◌≡◌, ◌<◌, find, slice_get, IfSome};
ghost use Rattle.satip_table.specs.Sessions.{has_id_of, has_slot};
ghost use Rattle.satip_table.specs.Living.{Sound};
ghost use Rattle.satip_fronts.specs.FrontEnds.{Sound as FrontsSound};

use crate::parts::Parts;
use satip_base::SessionId;
use satip_base::limits::SESSIONS;
use satip_table::Seat;

impl Parts {
    /// Returns the session at this place, from 0, in order of creation; None if there is none.
    pub(crate) fn seat(&self, place: usize) -> Option<Seat>
        ensures seat { result ≡ slice_get self.now.table.seats place }
        ensures within { IfSome result (λ seat. seat.slot < SESSIONS) }
    {
        self.table.seat(place).copied()
    }

    /// Returns the session with this id; None if it isn't alive.
    pub(crate) fn seat_of(&self, id: SessionId) -> Option<Seat>
        ensures seat { result ≡ find (has_id_of id) self.now.table.seats }
        ensures within { IfSome result (λ seat. seat.slot < SESSIONS) }
        ensures table { Sound self.now.table }
        ensures fronts { FrontsSound self.now.fronts }
    {
        self.table.seat_of(id).copied()
    }

    /// Returns the session of this slot; None if there is none.
    pub(crate) fn seat_at(&self, slot: u16) -> Option<Seat>
        ensures seat { result ≡ find (has_slot slot) self.now.table.seats }
        ensures within { IfSome result (λ seat. seat.slot < SESSIONS) }
        ensures table { Sound self.now.table }
    {
        self.table.seat_at(slot).copied()
    }
}
