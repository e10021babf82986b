//! Queries of the parts: which sessions and streams are alive, and whether more are available.

ghost use Rattle.std.specs.Prelude.{◌≡◌, ◌==◌, Some, IfSome, false, true, find, is_some, length, option_map};
ghost use Rattle.satip_fronts.specs.Openings.{IsStreamOrNone};
ghost use Rattle.satip_plain.specs.Types.{Config};
ghost use Rattle.satip_plain.specs.State.{State, rtsp_session, stream_of};
ghost use Rattle.satip_plain.specs.Refusals.{is_full};
ghost use Rattle.satip_plain.specs.Steps.{is_session};
ghost use Rattle.satip_state.specs.Looks.{if_rtsp, is_blocked, kept_number, numbered, owner_id, rtsp_number};
ghost use Rattle.satip_state.specs.Seated.{row_of};
ghost use Rattle.satip_state.specs.Standing.{StandsFor, stream_in};

use crate::parts::Parts;
use satip_base::SessionId;
use satip_flow::SenderState;
use satip_table::{Seat, Session, Stream};
use satip_tune::Tuning;

impl Parts {
    /// Returns the RTSP session with this id; None if there is none. Its stream is alive.
    pub fn rtsp_session(&self, id: SessionId) -> Option<Session>
        ensures session { (c : Config) (st : State) → StandsFor c self.now st
            → result ≡ option_map row_of (rtsp_session st id) }
        ensures rtsp { (c : Config) (st : State) → StandsFor c self.now st
            → IfSome result (λ row. option_map (λ s. s.http) (find (is_session row.id) st.sessions)
            ≡ Some false) }
        ensures housed { (c : Config) (st : State) → StandsFor c self.now st
            → IfSome result (λ row. is_some (stream_of st row.stream) ≡ true) }
    {
        match self.table.find(id) {
            None => None,
            Some(session) => only_rtsp(session),
        }
    }

    /// Returns the stream of this number; None if it isn't alive.
    pub fn stream(&self, number: u16) -> Option<&Stream>
        ensures stream { (c : Config) (st : State) → StandsFor c self.now st
            → option_map (λ s. stream_in s.now) result ≡ stream_of st number }
    {
        self.table.find_stream(number)
    }

    /// Returns the owner of a stream; None if the stream isn't alive.
    pub fn owner(&self, number: u16) -> Option<SessionId>
        ensures owner { (c : Config) (st : State) → StandsFor c self.now st
            → result ≡ owner_id st number }
    {
        match self.table.find_stream(number) {
            None => None,
            Some(stream) => Some(stream.owner),
        }
    }

    /// Returns the sequence number of the next datagram of an RTSP session; 0 if there is no RTSP
    /// session with this id.
    pub fn next_number(&self, id: SessionId) -> u16
        ensures number { (c : Config) (st : State) → StandsFor c self.now st
            → result ≡ rtsp_number (find (is_session id) st.sessions) }
    {
        match self.seat_of(id) {
            None => 0,
            Some(seat) => number_after(self.flow.state(seat.slot), &seat),
        }
    }

    /// Returns whether no stream is alive.
    pub fn has_no_streams(&self) -> bool
        ensures none { (c : Config) (st : State) → StandsFor c self.now st
            → result ≡ (length st.streams == 0) }
    {
        self.table.stream(0).is_none()
    }

    /// Returns whether no session can be created: 64 are alive, or 4294967295 were created.
    pub fn is_full(&self) -> bool
        ensures full { (c : Config) (st : State) → StandsFor c self.now st → result ≡ is_full st }
    {
        self.table.full()
    }

    /// Returns whether the server was stopped.
    pub fn is_stopped(&self) -> bool
        ensures stopped { (c : Config) (st : State) → StandsFor c self.now st
            → result ≡ st.stopped }
    {
        self.stopped
    }

    /// Returns whether no front end is available for a stream with this tuning. Then none fits, or
    /// each that fits serves another stream and isn't tuned to the tuning's multiplex. `None` is a
    /// stream that isn't created yet.
    pub fn is_blocked(&self, stream: Option<u16>, tuning: &Tuning) -> bool
        ensures blocked { (c : Config) (st : State) → StandsFor c self.now st
            → result ≡ is_blocked c st stream tuning.now }
    {
        self.fronts.is_blocked(number_of(stream), tuning)
    }
}

// Returns the packer's next number, or the session's first number if there is no packer yet.
fn number_after(sender: Option<SenderState>, seat: &Seat) -> u16
    ensures number { result ≡ kept_number sender (Some seat.now) }
{
    if seat.session.http {
        return 0;
    }
    match sender {
        None => seat.session.first,
        Some(sender) => sender.next,
    }
}

// Returns the number, if a stream may have it.
fn number_of(stream: Option<u16>) -> Option<u16>
    ensures number { result ≡ numbered stream }
    ensures known { IsStreamOrNone result }
{
    match stream {
        None => None,
        Some(number) => {
            if 1 <= number && number <= 64 {
                Some(number)
            } else {
                None
            }
        }
    }
}

// Returns the session, if it isn't an HTTP session.
fn only_rtsp(session: &Session) -> Option<Session>
    ensures rtsp { result ≡ if_rtsp (Some session.now) }
{
    if session.http { None } else { Some(*session) }
}
