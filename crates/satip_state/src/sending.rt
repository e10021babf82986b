//! The sending of held packets.

ghost use Rattle.std.specs.Prelude.{◌≡◌, ◌≢◌, ◌+◌, ◌≤◌, ◌==◌, ◌&&◌, not, true};
ghost use Rattle.satip_plain.specs.Types.{Config};
ghost use Rattle.satip_plain.specs.State.{State};
ghost use Rattle.satip_plain.specs.Sending.{each, each_of, let_go};
ghost use Rattle.satip_state.specs.Standing.{StandsFor, Moved};
ghost use Rattle.satip_state.specs.Turns.{after_round, flush_turn, is_flushed, turn_of};

use crate::parts::Parts;
use satip_base::Out;
use satip_base::limits::{DATAGRAM, DATAGRAMS, SESSIONS};
use satip_table::Session;

impl Parts {
    /// Sends the held packets of each RTSP session of this stream: at most one datagram a session,
    /// in order of creation.
    pub fn flush_stream(&mut self, number: u16, out: &mut Out)
        requires bytes { DATAGRAMS ≤ out.old.datagram_spare }
        requires count { SESSIONS ≤ out.old.count_spare }
        ensures moved { (c : Config) (st : State) → StandsFor c self.old st
            → Moved c self.new out.old out.new
            (each_of (λ s. s.stream == number && not s.http) (let_go true st.clock) st) }
        ensures bytes_spare { out.old.datagram_spare ≤ out.new.datagram_spare + DATAGRAMS }
        ensures count_spare { out.old.count_spare ≤ out.new.count_spare + SESSIONS }
    {
        self.flush_where(Some(number), out);
    }

    /// Sends the held packets of each RTSP session: at most one datagram a session, in order of
    /// creation.
    pub fn flush_all(&mut self, out: &mut Out)
        requires bytes { DATAGRAMS ≤ out.old.datagram_spare }
        requires count { SESSIONS ≤ out.old.count_spare }
        ensures moved { (c : Config) (st : State) → StandsFor c self.old st
            → Moved c self.new out.old out.new (each_of (λ s. not s.http) (let_go true st.clock)
            st) }
        ensures bytes_spare { out.old.datagram_spare ≤ out.new.datagram_spare + DATAGRAMS }
        ensures count_spare { out.old.count_spare ≤ out.new.count_spare + SESSIONS }
    {
        self.flush_where(None, out);
    }

    // Sends the held packets of each RTSP session of a stream, or of all streams.
    fn flush_where(&mut self, only: Option<u16>, out: &mut Out)
        requires bytes { DATAGRAMS ≤ out.old.datagram_spare }
        requires count { SESSIONS ≤ out.old.count_spare }
        ensures moved { (c : Config) (st : State) → StandsFor c self.old st
            → Moved c self.new out.old out.new (each (flush_turn only st.clock) st) }
        ensures bytes_spare { out.old.datagram_spare ≤ out.new.datagram_spare + DATAGRAMS }
        ensures count_spare { out.old.count_spare ≤ out.new.count_spare + SESSIONS }
    {
        for place in 0..self.table.count() {
            self.flush_place(place, only, out);
        }
    }

    // Sends the held packets of the session at a place, if it is one of those to flush.
    fn flush_place(&mut self, place: usize, only: Option<u16>, out: &mut Out)
        requires bytes { DATAGRAM ≤ out.old.datagram_spare }
        requires count { out.old.count_spare ≢ 0 }
        ensures moved { (c : Config) (st : State) → StandsFor c self.old st
            → Moved c self.new out.old out.new
            (after_round st (turn_of place (flush_turn only st.clock) st.sessions)) }
        ensures bytes_spare { out.old.datagram_spare ≤ out.new.datagram_spare + DATAGRAM }
        ensures count_spare { out.old.count_spare ≤ out.new.count_spare + 1 }
    {
        let Some(seat) = self.seat(place) else {
            return;
        };
        if !is_wanted(only, &seat.session) {
            return;
        }
        let _sent = self.flow.flush(seat.slot, self.clock, out);
    }
}

// Returns whether a flush of a stream, or of all streams, is for this session.
fn is_wanted(only: Option<u16>, session: &Session) -> bool
    ensures flushed { result ≡ is_flushed only session.now.stream session.now.http }
{
    match only {
        None => !session.http,
        Some(number) => session.stream == number && !session.http,
    }
}
