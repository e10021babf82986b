//! A queue of interleaved frames (RFC 2326, 10.12).

ghost use Rattle.std.specs.Prelude.{◌≡◌, ℕ, ◌+◌, ◌-◌, ◌*◌, ◌≤◌, ◌↔◌, ◌<◌, ◌&&◌, nat_le, List, [], ◌∷◌, ◌++◌, length, drop, IfOk, IsTrue, if◌then◌else◌};
ghost use Rattle.std.specs.List.{concat};
ghost use Rattle.satip_base.specs.Output.{Wrote};
ghost use Rattle.satip_interleave.specs.Frames.{frame, first_frames, later_frames, fits_behind};
ghost use Rattle.satip_interleave.specs.Framed.{frame_size, first_size, IsFramed};

use crate::ring::{RING_BYTES, Ring};
use satip_base::{Out, Want};
use std::alloc::Global;
use std::marker::Model;

// The largest number of bytes of the frames that leave at once.
const DRAIN_BYTES: usize = 65536;

// The largest number of bytes that a frame carries: 16 bits hold it.
const FRAME_BYTES: usize = 65535;

/// Frames of at most 524288 bytes together, first in, first out. A clause sees the list of them.
#[derive(Drop)]
pub(crate) struct Queue {
    ring: Ring,
}

impl Model for Queue {
    ghost use Rattle.std.specs.Prelude.{List, ℕ};

    ghost Value = { List (List ℕ) };

    ghost use Rattle.satip_interleave.specs.Framed.{frames_of, IsFramed};

    ghost view = { λ q. frames_of q.ring };

    ghost invariant = { λ q. IsFramed q.ring };
}

impl Queue {
    /// Takes all its memory. There are no frames.
    pub(crate) fn make(alloc: Global) -> Result<Queue, Want>
        ensures empty { IfOk result (λ queue. queue ≡ []) }
    {
        match Ring::make(alloc) {
            Ok(ring) => Ok(Queue { ring }),
            Err(want) => Err(want),
        }
    }

    /// Returns whether there are no frames.
    pub(crate) fn is_empty(&self) -> bool
        ensures empty { IsTrue result ↔ (self.now ≡ []) }
    {
        self.ring.len() == 0
    }

    /// Drops all frames.
    pub(crate) fn clear(&mut self)
        ensures empty { self.new ≡ [] }
    {
        self.ring.clear();
    }

    /// Appends a datagram as a frame if it fits. Returns whether it did.
    pub(crate) fn append(&mut self, channel: u8, datagram: &[u8]) -> bool
        ensures fits { result ≡ fits_behind self.old datagram.now }
        ensures appended { self.new ≡ (if fits_behind self.old datagram.now
            then self.old ++ frame channel datagram.now ∷ [] else self.old) }
    {
        let count = datagram.len();
        if !fits(self.ring.len(), count) {
            return false;
        }
        self.ring
            .push(&[b'$', channel, (count / 256) as u8, (count % 256) as u8]);
        self.ring.push(datagram);
        true
    }

    /// Moves the first frames to the reply, as many as fit in 65536 bytes. Returns the number of
    /// their bytes.
    pub(crate) fn drain(&mut self, out: &mut Out) -> usize
        requires room { 65536 ≤ out.old.reply_spare }
        ensures count { result ≡ length (concat (first_frames 65536 self.old)) }
        ensures later { self.new ≡ later_frames 65536 self.old }
        ensures wrote { Wrote out.old (concat (first_frames 65536 self.old)) out.new }
    {
        let count = first_bytes(&self.ring);
        self.ring.pop(count, out);
        count
    }
}

// Returns whether a frame with `count` bytes fits after the waiting ones.
fn fits(waiting: usize, count: usize) -> bool
    requires waiting { waiting ≤ 524288 }
    ensures fits { result ≡ (nat_le count 65535 && nat_le (waiting + 4 + count) 524288) }
{
    count <= FRAME_BYTES && waiting + 4 + count <= RING_BYTES
}

// Returns the number of bytes of the first frames that leave at once.
fn first_bytes(ring: &Ring) -> usize
    requires framed { IsFramed ring.now }
    ensures count { result ≡ first_size 65536 ring.now }
    ensures within { result ≤ length ring.now }
    ensures limit { result ≤ 65536 }
{
    let mut count = 0;
    while count < ring.len() {
        let size = frame_bytes(ring, count);
        if DRAIN_BYTES - count < size {
            return count;
        }
        count += size;
    }
    count
}

// Returns the size in bytes of the frame at a place, by its length field.
fn frame_bytes(ring: &Ring, at: usize) -> usize
    requires place { at < 524288 }
    requires head { at + 4 ≤ length ring.now }
    ensures size { result ≡ frame_size (drop at ring.now) }
{
    4 + ring.byte(at + 2) as usize * 256 + ring.byte(at + 3) as usize
}
