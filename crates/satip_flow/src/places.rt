//! The place of each slot's subscriber in the list.
ghost use Rattle.std.specs.Prelude.{◌≡◌, ◌≢◌, ◌%◌, ◌<◌, ◌≤◌, ℕ, length, slice_index_or};
ghost use Rattle.std.specs.Int.{bit_at};
ghost use Rattle.satip_flow.specs.Subscriptions.{SlotsApart};
ghost use Rattle.satip_flow.specs.Rows.{IsPlaced};

use crate::bits::{BITS, next_bit};
use crate::subscriber::Subscriber;

/// Writes the place of each subscriber at its slot.
pub(crate) fn note_places(places: &mut [u8], subscribers: &[Subscriber])
    requires count { length places.old ≡ 64 }
    requires apart { SlotsApart subscribers.now }
    ensures placed { IsPlaced places.new subscribers.now }
    ensures count { length places.new ≡ 64 }
{
    for (at, subscriber) in subscribers.iter().enumerate() {
        places[subscriber.place().slot as usize] = at as u8;
    }
}

/// Returns the places of these slots; each slot and each place is a bit.
pub(crate) fn places_of(slots: u64, places: &[u8]) -> u64
    requires count { length places.now ≡ 64 }
    ensures places { (slot : ℕ) → slot < 64 → bit_at slots slot ≡ 1
        → bit_at result (slice_index_or places.now slot 0 % 64) ≡ 1 }
    ensures only { (place : ℕ) → place < 64 → ((slot : ℕ) → slot < 64 → bit_at slots slot ≡ 1
        → slice_index_or places.now slot 0 % 64 ≢ place) → bit_at result place ≡ 0 }
{
    let mut marked = 0;
    let mut slot = next_bit(slots, 0);
    while slot < BITS {
        marked |= 1 << (places[slot] % 64);
        slot = next_bit(slots, slot + 1);
    }
    marked
}
