//! The places of a catcher: those in a ring, and the newest datagram after them.
ghost use Rattle.std.specs.Prelude.{◌≡◌, ◌+◌, ◌<◌, ◌≤◌, [], ◌∷◌, ◌++◌, ◌==◌, length, drop, replicate, get_or, Option, None, Some, is_some, if◌then◌else◌};
ghost use Rattle.circular_buffer.specs.Buffer.{buffer};
ghost use Rattle.satip_rtp_receiver.specs.Catching.{due, is_new, missing, put};
ghost use Rattle.satip_rtp_receiver.specs.Held.{IsNear, held_by, tail_held};

use crate::packets::Packets;
use crate::tail::Tail;
use circular_buffer::HeapCircularBuffer;
use satip_base::limits::PAYLOAD;

pub(crate) const PLACES: usize = 64;

// A number that is farther ahead of the greatest was passed.
const FARTHEST: usize = 32767;

/// Up to 64 places, each with its packets if they arrived.
pub(crate) type Ring = HeapCircularBuffer<Option<Packets>>;

/// Returns the number of places that aren't waited for.
pub(crate) fn due_of(ring: &Ring, tail: &Option<Tail>, finished: bool) -> u32
    requires near { IsNear tail.now }
    requires capacity { ring.now.capacity ≡ 64 }
    ensures due { result ≡ due finished (held_by ring.now tail.now) }
    ensures within { result < 65536 }
{
    let behind = match tail {
        None => 0,
        Some(tail) => tail.skip as usize + 1,
    };
    let held = ring.len() + behind;
    let due = if finished {
        held
    } else {
        held.saturating_sub(PLACES)
    };
    due as u32
}

/// Moves the newest datagram into the ring, after the missing places before it.
pub(crate) fn settle(ring: &mut Ring, tail: &mut Option<Tail>)
    requires capacity { ring.old.capacity ≡ 64 }
    requires room { length (held_by ring.old tail.old) ≤ 64 }
    ensures ring { ring.new ≡ buffer (held_by ring.old tail.old) 64 }
    ensures tail { tail.new ≡ None }
{
    let Some(Tail { skip, packets }) = tail.take() else {
        return;
    };
    push_missing(ring, skip);
    ring.push_back(Some(packets));
}

fn push_missing(ring: &mut Ring, count: u32)
    requires capacity { ring.old.capacity ≡ 64 }
    requires room { length ring.old.items + count ≤ 64 }
    ensures ring { ring.new ≡ buffer (ring.old.items ++ replicate count None) 64 }
{
    for _pushed in 0..count {
        ring.push_back(None);
    }
}

/// Holds the packets of a datagram that is `ahead` of the next number. Returns false if its place
/// is filled or its number was passed.
pub(crate) fn hold(ring: &mut Ring, tail: &mut Option<Tail>, ahead: usize, packets: &[u8]) -> bool
    requires few { length packets.now ≤ PAYLOAD }
    requires capacity { ring.old.capacity ≡ 64 }
    requires settled { tail.old ≡ None }
    ensures new { result ≡ is_new ahead ring.old.items }
    ensures held { held_by ring.new tail.new
        ≡ (if result then put ahead packets.now ring.old.items else ring.old.items) }
    ensures near { IsNear tail.new }
    ensures capacity { ring.new.capacity ≡ 64 }
{
    if ahead < ring.len() {
        return fill(ring, ahead, packets);
    }
    let skip = ahead - ring.len();
    if skip >= FARTHEST {
        return false;
    }
    *tail = Some(Tail {
        skip: skip as u32,
        packets: Packets::of(packets),
    });
    true
}

/// Fills a place that is still empty. Returns false if it is filled.
fn fill(ring: &mut Ring, at: usize, packets: &[u8]) -> bool
    requires few { length packets.now ≤ PAYLOAD }
    requires within { at < length ring.old.items }
    ensures new { result ≡ is_new at ring.old.items }
    ensures held { ring.new.items
        ≡ (if result then put at packets.now ring.old.items else ring.old.items) }
    ensures capacity { ring.new.capacity ≡ ring.old.capacity }
{
    let Some(place) = ring.get_mut(at) else {
        return false;
    };
    if place.is_some() {
        return false;
    }
    *place = Some(Packets::of(packets));
    true
}

/// Takes the packets of the first place, if they arrived.
pub(crate) fn pop_first(ring: &mut Ring, tail: &mut Option<Tail>) -> Option<Packets>
    requires near { IsNear tail.old }
    ensures first { result ≡ get_or (held_by ring.old tail.old) 0 None }
    ensures left { held_by ring.new tail.new
        ≡ drop (if is_some result then 1 else 0) (held_by ring.old tail.old) }
    ensures near { IsNear tail.new }
    ensures capacity { ring.new.capacity ≡ ring.old.capacity }
{
    match ring.front() {
        None => pop_tail(tail),
        Some(None) => None,
        Some(Some(_)) => ring.pop_front().flatten(),
    }
}

fn pop_tail(tail: &mut Option<Tail>) -> Option<Packets>
    requires near { IsNear tail.old }
    ensures first { result ≡ get_or (tail_held tail.old) 0 None }
    ensures left { tail_held tail.new
        ≡ drop (if is_some result then 1 else 0) (tail_held tail.old) }
    ensures near { IsNear tail.new }
{
    match tail {
        None => None,
        Some(newest) => {
            if newest.skip != 0 {
                return None;
            }
            match tail.take() {
                None => None,
                Some(newest) => Some(newest.packets),
            }
        }
    }
}

/// Drops the missing places at the front, at most `most`, and returns their number.
pub(crate) fn pass_missing(ring: &mut Ring, tail: &mut Option<Tail>, most: u32) -> u32
    requires near { IsNear tail.old }
    ensures missing { result ≡ missing most (held_by ring.old tail.old) }
    ensures left { held_by ring.new tail.new ≡ drop result (held_by ring.old tail.old) }
    ensures within { result ≤ most }
    ensures near { IsNear tail.new }
    ensures capacity { ring.new.capacity ≡ ring.old.capacity }
{
    let count = pop_missing(ring, most);
    if !ring.is_empty() {
        return count;
    }
    count + skip_missing(tail, most - count)
}

fn pop_missing(ring: &mut Ring, most: u32) -> u32
    ensures missing { result ≡ missing most ring.old.items }
    ensures left { ring.new ≡ buffer (drop result ring.old.items) ring.old.capacity }
    ensures within { result ≤ most }
{
    let mut count = 0;
    while count < most {
        if !is_first_missing(ring) {
            return count;
        }
        ring.pop_front();
        count += 1;
    }
    count
}

fn is_first_missing(ring: &Ring) -> bool
    ensures test { result ≡ (missing 1 ring.now.items == 1) }
{
    matches!(ring.front(), Some(None))
}

/// Drops missing places before the newest datagram, at most `most`, and returns their number.
fn skip_missing(tail: &mut Option<Tail>, most: u32) -> u32
    requires near { IsNear tail.old }
    ensures missing { result ≡ missing most (tail_held tail.old) }
    ensures left { tail_held tail.new ≡ drop result (tail_held tail.old) }
    ensures within { result ≤ most }
    ensures near { IsNear tail.new }
{
    match tail {
        None => 0,
        Some(newest) => {
            let count = newest.skip.min(most);
            newest.skip -= count;
            count
        }
    }
}
