//! The end of sessions.

ghost use Rattle.std.specs.Prelude.{◌≡◌, ◌≢◌, ◌+◌, ◌<◌, ◌≤◌, ◌==◌, Bool, false, true, length};
ghost use Rattle.std.specs.Int.{bit_at};
ghost use Rattle.std.specs.List.{list_any};
ghost use Rattle.satip_table.specs.Sessions.{has_id_of, without};
ghost use Rattle.satip_table.specs.Streams.{is_live};
ghost use Rattle.satip_fronts.specs.FrontEnds.{left};
ghost use Rattle.satip_plain.specs.Types.{Config, SessionId};
ghost use Rattle.satip_plain.specs.State.{State};
ghost use Rattle.satip_plain.specs.Steps.{end_where, is_session};
ghost use Rattle.satip_state.specs.Standing.{StandsFor, Moved};
ghost use Rattle.satip_state.specs.Ending.{EndedMarked, Removed};

use crate::parts::Parts;
use satip_base::limits::{DATAGRAM, SESSIONS};
use satip_base::{Out, SessionId};
use satip_table::Seat;

const SLOTS: u16 = SESSIONS as u16;

impl Parts {
    /// Ends a session. The held packets of an RTSP session leave, and the queue of an HTTP session
    /// is dropped. A stream without sessions is gone, and its front end is free if it serves no
    /// other. Returns false, and changes nothing, if the session isn't alive.
    pub fn end_session(&mut self, id: SessionId, out: &mut Out) -> bool
        requires bytes { DATAGRAM ≤ out.old.datagram_spare }
        requires count { out.old.count_spare ≢ 0 }
        ensures moved { (c : Config) (st : State) → StandsFor c self.old st
            → Moved c self.new out.old out.new (end_where (is_session id) st) }
        ensures lived { (c : Config) (st : State) → StandsFor c self.old st
            → result ≡ list_any (is_session id) st.sessions }
        ensures bytes_spare { out.old.datagram_spare ≤ out.new.datagram_spare + DATAGRAM }
        ensures count_spare { out.old.count_spare ≤ out.new.count_spare + 1 }
    {
        let Some(seat) = self.seat_of(id) else {
            return false;
        };
        let _sent = self.flow.flush(seat.slot, self.clock, out);
        self.remove(id, &seat);
        true
    }

    /// Ends a session without sending what it holds. Returns false if the session isn't alive.
    pub(crate) fn drop_session(&mut self, id: SessionId) -> bool
        ensures found { result ≡ list_any (has_id_of id) self.old.table.seats }
        ensures ended { (c : Config) (st : State) → StandsFor c self.old st
            → StandsFor c self.new (end_where (is_session id) st).state }
        ensures seats { self.new.table.seats ≡ without id self.old.table.seats }
        ensures fewer { list_any (has_id_of id) self.old.table.seats ≡ true
            → length self.new.table.seats < length self.old.table.seats }
    {
        let Some(seat) = self.seat_of(id) else {
            return false;
        };
        self.remove(id, &seat);
        true
    }

    /// Ends the sessions of marked slots without sending what they hold. Bit k marks slot k.
    pub(crate) fn end_marked(&mut self, marks: u64)
        ensures ended { (c : Config) (st : State) (ends : SessionId → Bool)
            → EndedMarked c self.old st ends marks 0 → EndedMarked c self.new st ends marks 64 }
    {
        if marks == 0 {
            return;
        }
        for slot in 0..SLOTS {
            self.end_slot(marks, slot);
        }
    }

    // Ends the session of a slot, if the slot is marked.
    fn end_slot(&mut self, marks: u64, slot: u16)
        requires slot { slot < SESSIONS }
        ensures ended { (c : Config) (st : State) (ends : SessionId → Bool)
            → EndedMarked c self.old st ends marks slot
            → EndedMarked c self.new st ends marks (slot + 1) }
    {
        if !is_marked(marks, slot) {
            return;
        }
        let Some(seat) = self.seat_at(slot) else {
            return;
        };
        let _lived = self.drop_session(seat.session.id);
    }

    // Removes the session of a seat from each of the parts.
    fn remove(&mut self, id: SessionId, seat: &Seat)
        requires slot { seat.now.slot < SESSIONS }
        ensures removed { Removed id seat.now self.old self.new }
    {
        let _listed = self.flow.end(seat.slot);
        self.timer.drop_key(seat.slot);
        let _lived = self.table.leave(id);
        self.give_back(seat.session.stream);
    }

    // Frees the front end of a stream, if the stream isn't alive any more.
    fn give_back(&mut self, stream: u16)
        ensures rest { self.new ≡ record self.old { fronts = self.new.fronts } }
        ensures stays { is_live self.old.table.streams stream ≡ true
            → self.new.fronts ≡ self.old.fronts }
        ensures leaves { is_live self.old.table.streams stream ≡ false → 1 ≤ stream → stream ≤ 64
            → self.new.fronts ≡ left self.old.fronts stream }
    {
        if self.table.find_stream(stream).is_some() {
            return;
        }
        if stream == 0 || stream > 64 {
            return;
        }
        self.fronts.leave(stream);
    }
}

// Returns whether the bit of a slot is set.
fn is_marked(marks: u64, slot: u16) -> bool
    requires slot { slot < SESSIONS }
    ensures marked { result ≡ (bit_at marks slot == 1) }
{
    (marks >> slot) & 1 == 1
}
