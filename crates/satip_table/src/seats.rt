//! The living sessions, in order of creation.

ghost use Rattle.std.specs.Prelude.{◌≡◌, ◌+◌, ◌<◌, [], ◌∷◌, ◌++◌, false, true, ℕ, find, length, map, slice_get, slice_index_or, is_some, IfOk, IfNone, IfSome};
ghost use Rattle.std.specs.List.{list_any};
ghost use Rattle.std.specs.Option.{option_map};
ghost use Rattle.satip_table.specs.Sessions.{has_id_of, has_slot, members, owner_of, with_session, without};
ghost use Rattle.satip_table.specs.Changes.{changed_by};
ghost use Rattle.satip_table.specs.Living.{CountsRise};
ghost use Rattle.satip_table.specs.Placed.{in_order, is_there};
ghost use Rattle.satip_table.specs.Seated.{no_seat};

use crate::order::Order;
use crate::session::{Change, Seat, Session, apply, has_id, no_session};
use satip_base::{SessionId, Want};
use std::alloc::Global;
use std::marker::Model;

/// The living sessions, in order of creation. Each has a slot, and keeps it.
#[derive(Drop)]
pub struct Seats {
    seats: Vec<Seat>,
    order: Order,
}

impl Model for Seats {
    ghost use Rattle.std.specs.Prelude.{List};
    ghost use Rattle.satip_table.specs.declared.session.Seat.{Seat};

    ghost Value = { List Seat };

    ghost use Rattle.satip_table.specs.Seated.{Seated, seated};

    ghost view = { seated };

    ghost invariant = { Seated };
}

impl Seats {
    /// Returns an empty list with room for 64 sessions. `Want` is out of memory.
    pub fn make(alloc: Global) -> Result<Seats, Want>
        ensures empty { IfOk result (λ s. s ≡ []) }
    {
        let order = Order::make(alloc)?;
        let Ok(mut seats) = Vec::with_capacity(alloc, 64) else {
            return Err(Want);
        };
        for slot in 0..64 {
            seats.push_reserved(Seat {
                slot,
                session: no_session(),
            });
        }
        Ok(Seats { seats, order })
    }

    /// Returns the number of living sessions.
    pub fn count(&self) -> usize
        ensures count { result ≡ length self.now }
    {
        self.order.as_slice().len()
    }

    /// Returns the session with this id, if it lives.
    pub fn find(&self, id: SessionId) -> Option<&Seat>
        requires rising { (last : ℕ) × CountsRise 0 last self.now }
        ensures seat { option_map (λ s. s.now) result ≡ find (has_id_of id) self.now }
    {
        let Some(slot) = slot_of(&self.seats, self.order.as_slice(), id) else {
            return None;
        };
        Some(&self.seats[slot as usize])
    }

    /// Returns the session in this slot, if one lives there.
    pub fn at(&self, slot: u16) -> Option<&Seat>
        ensures seat { option_map (λ s. s.now) result ≡ find (has_slot slot) self.now }
    {
        if !self.order.has(slot) {
            return None;
        }
        Some(&self.seats[slot as usize])
    }

    /// Returns the session at this place in the order, if there is one.
    pub fn get(&self, place: usize) -> Option<&Seat>
        ensures seat { option_map (λ s. s.now) result ≡ slice_get self.now place }
    {
        let Some(slot) = self.order.get(place) else {
            return None;
        };
        Some(&self.seats[slot as usize])
    }

    /// Returns the id of the first session of a stream, which owns it.
    pub fn first_member(&self, stream: u16) -> Option<SessionId>
        ensures first { result ≡ owner_of self.now stream }
    {
        first_of(&self.seats, self.order.as_slice(), stream)
    }

    /// Returns the id of a session of a stream after its owner, by its place among those, from 0.
    pub fn member(&self, stream: u16, place: usize) -> Option<SessionId>
        ensures member { result ≡ option_map (λ seat. seat.session.id)
            (slice_get (members stream self.now) (place + 1)) }
    {
        member_of(&self.seats, self.order.as_slice(), stream, place)
    }

    /// Appends a session in the least free slot, and returns the slot.
    pub fn add(&mut self, session: Session) -> u16
        requires room { length self.old < 64 }
        ensures within { result < 64 }
        ensures free { list_any (has_slot result) self.old ≡ false }
        ensures last { self.new ≡ self.old ++ record { slot = result; session = session } ∷ [] }
    {
        let slot = self.order.free();
        self.seats[slot as usize].session = session;
        self.order.push(slot);
        slot
    }

    /// Removes the session with this id, and returns its stream; `None` if it doesn't live.
    pub fn remove(&mut self, id: SessionId) -> Option<u16>
        requires rising { (last : ℕ) × CountsRise 0 last self.old }
        ensures stream { result ≡ option_map (λ seat. seat.session.stream)
            (find (has_id_of id) self.old) }
        ensures removed { self.new ≡ without id self.old }
        ensures lived { is_some result ≡ list_any (has_id_of id) self.old }
        ensures unchanged { IfNone result (self.new ≡ self.old) }
    {
        let Some(slot) = slot_of(&self.seats, self.order.as_slice(), id) else {
            return None;
        };
        self.order.remove(slot);
        Some(self.seats[slot as usize].session.stream)
    }

    /// Changes the session with this id; returns `false` if it doesn't live.
    pub fn change(&mut self, id: SessionId, to: Change) -> bool
        requires rising { (last : ℕ) × CountsRise 0 last self.old }
        ensures lives { result ≡ list_any (has_id_of id) self.old }
        ensures changed { self.new ≡ with_session id (changed_by to) self.old }
    {
        let Some(slot) = slot_of(&self.seats, self.order.as_slice(), id) else {
            return false;
        };
        apply(&mut self.seats[slot as usize].session, to);
        true
    }
}

/// Returns the slot of the session with this id, if it is in the order. It does a binary search by
/// the ids' counts.
fn slot_of(seats: &[Seat], order: &[u16], id: SessionId) -> Option<u16>
    requires within { (slot : ℕ) → is_there slot order.now ≡ true → slot < length seats.now }
    requires rising { (last : ℕ) × CountsRise 0 last (in_order no_seat seats.now order.now) }
    ensures found { option_map (λ slot. slice_index_or seats.now slot no_seat) result
        ≡ find (has_id_of id) (in_order no_seat seats.now order.now) }
    ensures there { IfSome result (λ slot. is_there slot order.now ≡ true) }
{
    let mut low = 0;
    let mut high = order.len();
    while low < high {
        let middle = low + (high - low) / 2;
        let slot = order[middle];
        let count = seats[slot as usize].session.id.count;
        if count < id.count {
            low = middle + 1;
        } else {
            high = middle;
        }
    }
    if low == order.len() {
        return None;
    }
    let slot = order[low];
    if has_id(&seats[slot as usize], id) {
        Some(slot)
    } else {
        None
    }
}

/// Returns the id of the first session of a stream, among those in the order.
fn first_of(seats: &[Seat], order: &[u16], stream: u16) -> Option<SessionId>
    requires within { (slot : ℕ) → is_there slot order.now ≡ true → slot < length seats.now }
    ensures first { result ≡ owner_of (in_order no_seat seats.now order.now) stream }
{
    for slot in order {
        let session = &seats[*slot as usize].session;
        if session.stream == stream {
            return Some(session.id);
        }
    }
    None
}

/// Returns the id of a session of a stream after its first, by its place among those, from 0.
fn member_of(seats: &[Seat], order: &[u16], stream: u16, place: usize) -> Option<SessionId>
    requires within { (slot : ℕ) → is_there slot order.now ≡ true → slot < length seats.now }
    ensures member { result ≡ option_map (λ seat. seat.session.id)
        (slice_get (members stream (in_order no_seat seats.now order.now)) (place + 1)) }
{
    let mut before = 0;
    for slot in order {
        let session = &seats[*slot as usize].session;
        if session.stream != stream {
            continue;
        }
        if before > place {
            return Some(session.id);
        }
        before += 1;
    }
    None
}
