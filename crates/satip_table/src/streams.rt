//! The living streams, by rising number.

ghost use Rattle.std.specs.Prelude.{◌≡◌, ◌+◌, ◌<◌, ◌≤◌, [], not, true, false, ℕ, filter, find, length, map, is_some, slice_get, IfOk, IfSome, IfNone};
ghost use Rattle.std.specs.Option.{option_map};
ghost use Rattle.satip_table.specs.Placed.{is_there};
ghost use Rattle.satip_table.specs.Streams.{fresh, gap, has_number, is_live, put_stream, with_stream};
ghost use Rattle.satip_table.specs.Owners.{handed, owned_where};
ghost use Rattle.satip_table.specs.Living.{NumbersRise};

use crate::order::Order;
use crate::stream::{Stream, begin, new_stream, retune};
use satip_base::{SessionId, Want};
use satip_pids::PidSet;
use satip_tune::Tuning;
use std::alloc::Global;
use std::marker::Model;

/// The living streams, by rising number. Each has a separate place, by its number, and keeps it.
#[derive(Drop)]
pub struct Streams {
    streams: Vec<Stream>,
    order: Order,
}

impl Model for Streams {
    ghost use Rattle.std.specs.Prelude.{List};
    ghost use Rattle.satip_table.specs.declared.stream.Stream.{Stream};

    ghost Value = { List Stream };

    ghost use Rattle.satip_table.specs.Numbered.{Numbered, numbered};

    ghost view = { numbered };

    ghost invariant = { Numbered };
}

impl Streams {
    /// Returns an empty list with room for 64 streams. `Want` is out of memory.
    pub fn make(alloc: Global) -> Result<Streams, Want>
        ensures empty { IfOk result (λ s. s ≡ []) }
    {
        let order = Order::make(alloc)?;
        let Ok(mut streams) = Vec::with_capacity(alloc, 64) else {
            return Err(Want);
        };
        for place in 0..64 {
            streams.push_reserved(new_stream(place + 1, SessionId { count: 0, word: 0 }));
        }
        Ok(Streams { streams, order })
    }

    /// Returns the stream of this number, if it lives.
    pub fn find(&self, number: u16) -> Option<&Stream>
        ensures stream { option_map (λ s. s.now) result ≡ find (has_number number) self.now }
    {
        let Some(place) = place_of(&self.order, number) else {
            return None;
        };
        Some(&self.streams[place as usize])
    }

    /// Returns the stream at this place in the order, if there is one.
    pub fn get(&self, place: usize) -> Option<&Stream>
        ensures stream { option_map (λ s. s.now) result ≡ slice_get self.now place }
    {
        let Some(place) = self.order.get(place) else {
            return None;
        };
        Some(&self.streams[place as usize])
    }

    /// Returns the least number from 1 that no living stream has.
    pub fn free_number(&self) -> u16
        requires few { length self.now < 64 }
        requires rising { NumbersRise 0 self.now }
        ensures number { result ≡ gap 1 self.now + 1 }
    {
        self.order.free() + 1
    }

    /// Creates the stream of the least free number. It isn't tuned and selects no PID.
    pub fn begin(&mut self, number: u16, owner: SessionId)
        requires room { length self.old < 64 }
        requires rising { NumbersRise 0 self.old }
        requires number { number ≡ gap 1 self.old + 1 }
        ensures put { self.new ≡ put_stream (fresh number owner) self.old }
    {
        let place = number - 1;
        begin(&mut self.streams[place as usize], owner);
        self.order.insert(place as usize, place);
    }

    /// Sets the owner of a stream.
    pub fn own(&mut self, number: u16, owner: SessionId)
        ensures owned { self.new ≡ map (owned_where number owner) self.old }
    {
        let Some(place) = place_of(&self.order, number) else {
            return;
        };
        self.streams[place as usize].owner = owner;
    }

    /// Ends a stream.
    pub fn end(&mut self, number: u16)
        ensures ended { self.new ≡ filter (λ stream. not (has_number number stream)) self.old }
    {
        let Some(place) = place_of(&self.order, number) else {
            return;
        };
        self.order.remove(place);
    }

    /// Changes the stream of this number; returns `false` if it doesn't live.
    pub fn change(
        &mut self,
        number: u16,
        tuning: Option<Tuning>,
        front: Option<u16>,
        pids: PidSet,
    ) -> bool
        ensures lives { result ≡ is_live self.old number }
        ensures changed { self.new ≡ with_stream number tuning front pids self.old }
    {
        let Some(place) = place_of(&self.order, number) else {
            return false;
        };
        retune(&mut self.streams[place as usize], tuning, front, pids);
        true
    }
}

/// Makes `first` the owner of a stream that lost a session; ends the stream if there is none.
pub fn hand_on(streams: &mut Streams, number: u16, first: Option<SessionId>)
    ensures handed { streams.new ≡ handed number first streams.old }
{
    match first {
        None => streams.end(number),
        Some(owner) => streams.own(number, owner),
    }
}

/// Returns the place of the stream of this number, if it lives.
fn place_of(order: &Order, number: u16) -> Option<u16>
    ensures some { IfSome result (λ place. (place + 1 ≡ number)
        × (is_there place order.now ≡ true)) }
    ensures none { IfNone result ((place : ℕ) → place + 1 ≡ number
        → is_there place order.now ≡ false) }
{
    match number.checked_sub(1) {
        None => None,
        Some(place) => { if order.has(place) { Some(place) } else { None } }
    }
}
