//! `Cutter`; in contracts it is the list of the bytes that it holds.
ghost use Rattle.std.specs.Prelude.{◌≡◌, ◌⊎◌, ℕ, ◌+◌, ◌-◌, ◌<◌, ◌≤◌, ◌↔◌, ◌==◌, List, min, [], ◌++◌, length, take, drop, position, slice_index, IsNone, IfNone, IfSome, MatchOption};
ghost use Rattle.std.specs.Option.{option_to_list};
ghost use Rattle.satip_ts.specs.Recording.{from_sync, cut_packets};
ghost use Rattle.satip_ts.specs.Calls.{Does, Took, Answered};

use crate::packet::{Packet, SYNC_BYTE};
use std::marker::Model;

const PLACES: usize = 4096;

/// Cuts transport packets out of a recording that is fed in pieces. It holds at most 4096 bytes.
#[derive(Drop)]
pub struct Cutter {
    places: [u8; PLACES],
    start: usize,
    end: usize,
}

impl Model for Cutter {
    ghost use Rattle.std.specs.Prelude.{List, ℕ, ◌-◌, ◌≤◌, take, drop};

    ghost Value = { List ℕ };

    ghost view = { λ c. take (c.end - c.start) (drop c.start c.places) };

    ghost invariant = { λ c. (c.start ≤ c.end) × (c.end ≤ 4096) };
}

impl Cutter {
    /// Returns a cutter that holds nothing.
    pub fn new() -> Cutter
        ensures empty { result ≡ [] }
    {
        Cutter {
            places: [0; PLACES],
            start: 0,
            end: 0,
        }
    }

    /// Takes bytes from the start of the piece, as many as there is room for, and returns their
    /// number.
    pub fn feed(&mut self, piece: &[u8]) -> usize
        ensures taken { result ≡ min (length piece.now) (4096 - length self.old) }
        ensures held { Does self.old (Took (take result piece.now)) self.new }
    {
        let held = self.end - self.start;
        self.start = start_with_room(&mut self.places, self.start, self.end, piece.len());
        self.end = self.start + held;
        let count = piece.len().min(PLACES - self.end);
        let (front, _) = piece.split_at(count);
        self.places[self.end..self.end + count].copy_from_slice(front);
        self.end += count;
        count
    }

    /// Drops the bytes before the next sync byte, and returns the packet that begins there. `None`
    /// if fewer than 188 bytes are held from there on; the caller then feeds more.
    pub fn next(&mut self) -> Option<Packet>
        ensures none { IsNone result ↔ (length (from_sync self.old) < 188) }
        ensures held { Does self.old (Answered result) self.new }
        // for any bytes that are fed later
        ensures first { (more : List ℕ) → cut_packets (self.old ++ more) ≡ option_to_list result
            ++ cut_packets (self.new ++ more) }
        ensures complete { IsNone result → cut_packets self.new ≡ [] }
    {
        let skipped = bytes_before_sync(&self.places[self.start..self.end]);
        self.start += skipped;
        let Some(packet) = packet_at_front(&self.places[self.start..self.end]) else {
            return None;
        };
        self.start += 188;
        Some(packet)
    }
}

/// Moves the held bytes to the start if fewer than `wanted` places follow them. Returns the place
/// of their first byte.
fn start_with_room(places: &mut [u8; PLACES], start: usize, end: usize, wanted: usize) -> usize
    requires ordered { start ≤ end }
    requires within { end ≤ 4096 }
    ensures kept { take (end - start) (drop result places.new)
        ≡ take (end - start) (drop start places.old) }
    ensures room { (result ≡ 0) ⊎ (result + (end - start) + wanted ≤ 4096) }
    ensures inside { result + (end - start) ≤ 4096 }
{
    if wanted <= PLACES - end {
        return start;
    }
    places.copy_within(start..end, 0);
    0
}

/// Returns the number of bytes before the first sync byte.
fn bytes_before_sync(held: &[u8]) -> usize
    ensures sync { drop result held.now ≡ from_sync held.now }
    ensures within { result ≤ length held.now }
{
    first_sync(held).unwrap_or(held.len())
}

/// Returns the place of the first sync byte.
fn first_sync(held: &[u8]) -> Option<usize>
    ensures place { result ≡ position (λ b. b == 71) held.now }
{
    held.iter().position(|b| *b == SYNC_BYTE)
}

/// Returns the packet at the start of bytes that begin with a sync byte, if it is complete.
fn packet_at_front(held: &[u8]) -> Option<Packet>
    requires synchronized { 0 < length held.now → slice_index held.now 0 ≡ 71 }
    ensures packet { MatchOption result (length held.now < 188)
        (λ p. (p ≡ take 188 held.now) × (188 ≤ length held.now)) }
{
    let Some(bytes) = held.first_chunk::<188>() else {
        return None;
    };
    Packet::of(bytes)
}
