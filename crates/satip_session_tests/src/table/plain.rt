//! A table as two lists in order, each change of which goes through all of them: what the tests
//! compare the table with.

use satip_base::{SessionId, Want};
use satip_pids::PidSet;
use satip_table::{NewSession, Seat, Session, Stream};

/// The sessions in order of making, the streams in rising number, and how many sessions were made.
#[derive(Drop)]
pub struct Plain {
    pub seats: Vec<Seat>,
    pub streams: Vec<Stream>,
    pub made: u32,
}

impl Plain {
    /// The place of the session with this id.
    pub fn place_of(&self, id: SessionId) -> Option<usize> {
        for (place, seat) in self.seats.iter().enumerate() {
            if seat.session.id == id {
                return Some(place);
            }
        }
        None
    }

    /// Makes a session at a stream.
    pub fn join(&mut self, session: NewSession, stream: u16) -> Result<SessionId, Want> {
        let id = SessionId {
            count: self.made.wrapping_add(1),
            word: session.draw.word,
        };
        let session = Session {
            id,
            http: session.http,
            peer: session.peer,
            ports: session.ports,
            stream,
            playing: session.http,
            heard: session.heard,
            reported: None,
            ssrc: session.draw.ssrc,
            first: session.draw.first,
        };
        let slot = self.free_slot();
        if self.seats.push(Seat { slot, session }).is_err() {
            return Err(Want);
        }
        self.made = id.count;
        Ok(id)
    }

    /// Makes a session with a stream of its own.
    pub fn found(&mut self, session: NewSession) -> Result<(SessionId, u16), Want> {
        let number = self.free_number();
        let id = self.join(session, number)?;
        let place = (number as usize).saturating_sub(1).min(self.streams.len());
        let stream = Stream {
            number,
            owner: id,
            tuning: None,
            front: None,
            pids: PidSet::new(),
        };
        if self.streams.insert(place, stream).is_err() {
            return Err(Want);
        }
        Ok((id, number))
    }

    /// Ends a session, and each stream that has none left.
    pub fn leave(&mut self, id: SessionId) -> bool {
        if self.place_of(id).is_none() {
            return false;
        }
        self.seats.retain(|seat| seat.session.id != id);
        keep(&self.seats, &mut self.streams);
        true
    }

    /// Sets a stream's front end and PIDs.
    pub fn change(&mut self, number: u16, front: Option<u16>, pids: PidSet) -> bool {
        let Some(place) = stream_place(&self.streams, number) else {
            return false;
        };
        if let Some(stream) = self.streams.get_mut(place) {
            stream.tuning = None;
            stream.front = front;
            stream.pids = pids;
        }
        true
    }

    fn free_slot(&self) -> u16 {
        for slot in 0..64 {
            if !is_taken(&self.seats, slot) {
                return slot;
            }
        }
        64
    }

    fn free_number(&self) -> u16 {
        for number in 1..65 {
            if stream_place(&self.streams, number).is_none() {
                return number;
            }
        }
        65
    }
}

/// Returns the place of the stream of this number.
pub fn stream_place(streams: &[Stream], number: u16) -> Option<usize> {
    for (place, stream) in streams.iter().enumerate() {
        if stream.number == number {
            return Some(place);
        }
    }
    None
}

fn is_taken(seats: &[Seat], slot: u16) -> bool {
    for seat in seats {
        if seat.slot == slot {
            return true;
        }
    }
    false
}

/// Returns the first session of a stream.
fn first_of(seats: &[Seat], stream: u16) -> Option<SessionId> {
    for seat in seats {
        if seat.session.stream == stream {
            return Some(seat.session.id);
        }
    }
    None
}

/// Drops the streams that have no session, and gives each other to the first of its own.
fn keep(seats: &[Seat], streams: &mut Vec<Stream>) {
    streams.retain(|stream| first_of(seats, stream.number).is_some());
    for stream in streams.iter_mut() {
        if let Some(owner) = first_of(seats, stream.number) {
            stream.owner = owner;
        }
    }
}
