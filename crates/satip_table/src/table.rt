//! The living sessions and streams.

ghost use Rattle.std.specs.Prelude.{◌≡◌, ◌+◌, ◌<◌, ◌≤◌, false, true, find, is_some, length, slice_get, IfOk, IfSome};
ghost use Rattle.std.specs.Bool.{OnFalse};
ghost use Rattle.std.specs.List.{list_any};
ghost use Rattle.std.specs.Option.{option_map};
ghost use Rattle.satip_table.specs.Sessions.{Adds, has_id_of, has_slot, heard_at, members, moved_to, following_id, played, reported_at, session_of, with_session, without};
ghost use Rattle.satip_table.specs.Streams.{fresh, has_number, is_live, kept_streams, least_number, put_stream, with_stream};
ghost use Rattle.satip_table.specs.Living.{Sound, is_full, none};

use crate::seats::Seats;
use crate::session::{Change, NewSession, Seat, Session, new_session};
use crate::stream::Stream;
use crate::streams::{Streams, hand_on};
use satip_base::{Peer, Ports, SessionId, Want};
use satip_pids::PidSet;
use satip_tune::Tuning;
use std::alloc::Global;
use std::marker::Model;

/// The living sessions and streams, at most 64 of each. In contracts it has the sessions in order
/// of creation, each with its slot, the streams by rising number, and the count of sessions
/// created. The first session of a stream is its owner; the others joined it, in that order.
#[derive(Drop)]
pub struct Table {
    seats: Seats,
    streams: Streams,
    made: u32,
}

impl Model for Table {
    ghost use Rattle.satip_table.specs.Living.{Living};

    ghost Value = { Living };

    ghost use Rattle.satip_table.specs.View.{Stored, living};

    ghost view = { living };

    ghost invariant = { Stored };
}

impl Table {
    /// Returns an empty table with room for 64 sessions and 64 streams. `Want` is out of memory.
    pub fn make(alloc: Global) -> Result<Table, Want>
        ensures empty { IfOk result (λ t. t ≡ none) }
        ensures sound { IfOk result Sound }
    {
        let seats = Seats::make(alloc)?;
        let streams = Streams::make(alloc)?;
        Ok(Table {
            seats,
            streams,
            made: 0,
        })
    }

    /// Returns the number of living sessions.
    pub fn count(&self) -> usize
        ensures count { result ≡ length self.now.seats }
        ensures within { result ≤ 64 }
    {
        self.seats.count()
    }

    /// Returns whether no session can be created: 64 live, or 4294967295 were created.
    pub fn full(&self) -> bool
        ensures full { result ≡ is_full self.now }
    {
        self.seats.count() == 64 || self.made == u32::MAX
    }

    /// Creates a session that owns a new stream, which isn't tuned and selects no PID. Returns the
    /// session's id and the stream's number.
    pub fn found(&mut self, session: NewSession) -> (SessionId, u16)
        requires room { is_full self.old ≡ false }
        ensures id { result.0 ≡ following_id self.old.made session }
        ensures number { result.1 ≡ least_number (is_live self.old.streams) }
        ensures within { result.1 ≤ 64 }
        ensures sessions { Adds self.old.seats (session_of self.old.made session result.1)
            self.new.seats }
        ensures streams { self.new.streams ≡ put_stream (fresh result.1 result.0) self.old.streams }
        ensures made { self.new.made ≡ self.old.made + 1 }
        ensures sound { Sound self.new }
    {
        let number = self.streams.free_number();
        let session = new_session(self.made, &session, number);
        self.streams.begin(number, session.id);
        self.seats.add(session);
        self.made += 1;
        (session.id, number)
    }

    /// Creates a session that joins a living stream, after those that joined it before. Returns its
    /// id.
    pub fn join(&mut self, session: NewSession, stream: u16) -> SessionId
        requires room { is_full self.old ≡ false }
        requires lives { is_live self.old.streams stream ≡ true }
        ensures id { result ≡ following_id self.old.made session }
        ensures sessions { Adds self.old.seats (session_of self.old.made session stream)
            self.new.seats }
        ensures streams { self.new.streams ≡ self.old.streams }
        ensures made { self.new.made ≡ self.old.made + 1 }
        ensures sound { Sound self.new }
    {
        let session = new_session(self.made, &session, stream);
        self.seats.add(session);
        self.made += 1;
        session.id
    }

    /// Ends a session; returns `false` if it doesn't live. If it owned a stream that others joined,
    /// the first of them becomes the owner. If it owned a stream that none joined, the stream ends.
    pub fn leave(&mut self, id: SessionId) -> bool
        ensures lived { result ≡ list_any (has_id_of id) self.old.seats }
        ensures sessions { self.new.seats ≡ without id self.old.seats }
        ensures streams { self.new.streams ≡ kept_streams self.new.seats self.old.streams }
        ensures made { self.new.made ≡ self.old.made }
        ensures unchanged { OnFalse result (self.new ≡ self.old) }
        ensures sound { Sound self.new }
    {
        let Some(stream) = self.seats.remove(id) else {
            return false;
        };
        let first = self.seats.first_member(stream);
        hand_on(&mut self.streams, stream, first);
        true
    }

    /// Returns the session with this id; `None` if it doesn't live.
    pub fn find(&self, id: SessionId) -> Option<&Session>
        ensures found { option_map (λ s. s.now) result
            ≡ option_map (λ seat. seat.session) (find (has_id_of id) self.now.seats) }
        ensures lives { is_some result ≡ list_any (has_id_of id) self.now.seats }
    {
        self.seats.find(id).map(|seat| &seat.session)
    }

    /// Returns the slot of the session with this id: a number below 64, which only this session has
    /// while it lives. `None` if it doesn't live.
    pub fn slot(&self, id: SessionId) -> Option<u16>
        ensures slot { result ≡ option_map (λ seat. seat.slot)
            (find (has_id_of id) self.now.seats) }
        ensures within { IfSome result (λ slot. slot < 64) }
    {
        self.seats.find(id).map(|seat| seat.slot)
    }

    /// Returns the session with this id, and its slot; `None` if it doesn't live.
    pub fn seat_of(&self, id: SessionId) -> Option<&Seat>
        ensures seat { option_map (λ s. s.now) result ≡ find (has_id_of id) self.now.seats }
        ensures within { IfSome result (λ seat. seat.now.slot < 64) }
    {
        self.seats.find(id)
    }

    /// Returns the living session in this slot, with the slot; `None` if there is none.
    pub fn seat_at(&self, slot: u16) -> Option<&Seat>
        ensures seat { option_map (λ s. s.now) result ≡ find (has_slot slot) self.now.seats }
        ensures within { IfSome result (λ seat. seat.now.slot < 64) }
    {
        self.seats.at(slot)
    }

    /// Returns the living session in this slot; `None` if there is none.
    pub fn at(&self, slot: u16) -> Option<&Session>
        ensures session { option_map (λ s. s.now) result
            ≡ option_map (λ seat. seat.session) (find (has_slot slot) self.now.seats) }
    {
        self.seat_at(slot).map(|seat| &seat.session)
    }

    /// Returns the stream of this number; `None` if it doesn't live.
    pub fn find_stream(&self, number: u16) -> Option<&Stream>
        ensures found { option_map (λ s. s.now) result ≡ find (has_number number) self.now.streams }
        ensures lives { is_some result ≡ is_live self.now.streams number }
    {
        self.streams.find(number)
    }

    /// Returns the living session at this place, from 0, in order of creation; `None` if there is
    /// none.
    pub fn session(&self, place: usize) -> Option<&Session>
        ensures found { option_map (λ s. s.now) result
            ≡ option_map (λ seat. seat.session) (slice_get self.now.seats place) }
    {
        self.seats.get(place).map(|seat| &seat.session)
    }

    /// Returns the living session at this place, from 0, in order of creation, with its slot;
    /// `None` if there is none.
    pub fn seat(&self, place: usize) -> Option<&Seat>
        ensures seat { option_map (λ s. s.now) result ≡ slice_get self.now.seats place }
        ensures within { IfSome result (λ seat. seat.now.slot < 64) }
    {
        self.seats.get(place)
    }

    /// Returns the living stream at this place, from 0, by rising number; `None` if there is none.
    pub fn stream(&self, place: usize) -> Option<&Stream>
        ensures found { option_map (λ s. s.now) result ≡ slice_get self.now.streams place }
    {
        self.streams.get(place)
    }

    /// Returns the session at this place, from 0, of those that joined a stream, in order of
    /// joining; `None` if there is none.
    pub fn joined(&self, number: u16, place: usize) -> Option<SessionId>
        ensures joined { result
            ≡ option_map (λ seat. seat.session.id) (slice_get (members number self.now.seats)
            (place + 1)) }
    {
        self.seats.member(number, place)
    }

    /// Sets the last activity of a session, in milliseconds; returns `false` if it doesn't live.
    pub fn heard(&mut self, id: SessionId, now: u64) -> bool
        ensures lives { result ≡ list_any (has_id_of id) self.old.seats }
        ensures heard { self.new ≡ record self.old {
          seats = with_session id (heard_at now)
              self.old.seats;
        } }
        ensures sound { Sound self.new }
    {
        self.seats.change(id, Change::Heard(now))
    }

    /// Marks a session as playing; returns `false` if it doesn't live.
    pub fn play(&mut self, id: SessionId) -> bool
        ensures lives { result ≡ list_any (has_id_of id) self.old.seats }
        ensures plays { self.new ≡ record self.old {
          seats = with_session id played
              self.old.seats;
        } }
        ensures sound { Sound self.new }
    {
        self.seats.change(id, Change::Playing)
    }

    /// Sets the destination of a session's datagrams; returns `false` if it doesn't live.
    pub fn move_to(&mut self, id: SessionId, peer: Peer, ports: Ports) -> bool
        ensures lives { result ≡ list_any (has_id_of id) self.old.seats }
        ensures moved { self.new ≡ record self.old {
          seats = with_session id (moved_to peer ports)
              self.old.seats;
        } }
        ensures sound { Sound self.new }
    {
        self.seats.change(id, Change::Address(peer, ports))
    }

    /// Sets the moment of a session's last report, in milliseconds; returns `false` if it doesn't
    /// live.
    pub fn reported(&mut self, id: SessionId, now: u64) -> bool
        ensures lives { result ≡ list_any (has_id_of id) self.old.seats }
        ensures reported { self.new ≡ record self.old {
          seats = with_session id (reported_at now)
              self.old.seats;
        } }
        ensures sound { Sound self.new }
    {
        self.seats.change(id, Change::Reported(now))
    }

    /// Sets a stream's tuning, front end and PIDs; returns `false` if it doesn't live.
    pub fn change(
        &mut self,
        number: u16,
        tuning: Option<Tuning>,
        front: Option<u16>,
        pids: PidSet,
    ) -> bool
        ensures lives { result ≡ is_live self.old.streams number }
        ensures changed { self.new
            ≡ record self.old { streams = with_stream number tuning front pids self.old.streams } }
        ensures sound { Sound self.new }
    {
        self.streams.change(number, tuning, front, pids)
    }
}
