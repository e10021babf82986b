//! The bytes of a file that were read and are not given yet.

ghost use Rattle.std.specs.Prelude.{◌≡◌, ◌+◌, ◌-◌, ◌<◌, ◌≤◌, ◌==◌, drop, length, min, position, take};
ghost use Rattle.satip_ts.specs.Recording.{from_sync};

use std::io;
use std::io::Read;
use std::marker::Model;

/// The count of bytes of a packet.
pub(crate) const PACKET: usize = 188;

const SYNC_BYTE: u8 = 0x47;

// The room for the 64 packets that a pump gives between two pauses, and for less than one behind
// them.
const ROOM: usize = 12220;

/// The bytes that were read of a file and are not given yet.
#[derive(Drop)]
pub(crate) struct ReadAhead {
    places: [u8; ROOM],
    start: usize,
    end: usize,
}

impl Model for ReadAhead {
    ghost use Rattle.std.specs.Prelude.{List, ℕ, ◌-◌, ◌≤◌, take, drop};

    ghost Value = { List ℕ };

    ghost view = { λ r. take (r.end - r.start) (drop r.start r.places) };

    ghost invariant = { λ r. (r.start ≤ r.end) × (r.end ≤ 12220) };
}

impl ReadAhead {
    ghost use Rattle.std.specs.Prelude.{◌↔◌, [], IsTrue};

    /// Creates one of a file of which nothing was read.
    pub(crate) fn new() -> ReadAhead
        ensures empty { result ≡ [] }
    {
        ReadAhead {
            places: [0; ROOM],
            start: 0,
            end: 0,
        }
    }

    /// Drops all bytes.
    pub(crate) fn clear(&mut self)
        ensures empty { self.new ≡ [] }
    {
        self.start = 0;
        self.end = 0;
    }

    /// Drops the bytes before the next sync byte. Returns whether a packet begins there that is
    /// whole.
    pub(crate) fn find(&mut self) -> bool
        ensures found { self.new ≡ from_sync self.old }
        ensures whole { IsTrue result ↔ (188 ≤ length self.new) }
    {
        self.start += bytes_before_sync(&self.places[self.start..self.end]);
        self.end - self.start >= PACKET
    }

    /// Returns the packet that begins `place` bytes after the first byte; `None` if none begins
    /// there, or it isn't whole.
    pub(crate) fn packet_at(&self, place: usize) -> Option<&[u8; PACKET]> {
        let held = &self.places[self.start..self.end];
        let Some(rest) = held.get(place..) else {
            return None;
        };
        let Some(packet) = rest.first_chunk::<PACKET>() else {
            return None;
        };
        if packet[0] != SYNC_BYTE {
            return None;
        }
        Some(packet)
    }

    /// Hands out as many bytes as the buffer has room for, at most `most`; returns their count.
    pub(crate) fn give(&mut self, buf: &mut [u8], most: usize) -> usize
        ensures count { result ≡ min (length buf.new) (min most (length self.old)) }
        ensures given { take result buf.new ≡ take result self.old }
        ensures rest { self.new ≡ drop result self.old }
    {
        let count = buf.len().min(most.min(self.end - self.start));
        let (front, _) = buf.split_at_mut(count);
        front.copy_from_slice(&self.places[self.start..self.start + count]);
        self.start += count;
        count
    }

    /// Reads on in the file, as far as there is room. Returns the count of bytes that were read.
    pub(crate) fn fill<R: Read>(&mut self, file: &mut R) -> io::Result<usize> {
        self.places.copy_within(self.start..self.end, 0);
        self.end -= self.start;
        self.start = 0;
        let count = file.read(&mut self.places[self.end..])?;
        self.end += count;
        Ok(count)
    }
}

// Returns the number of bytes before the first sync byte.
fn bytes_before_sync(held: &[u8]) -> usize
    ensures sync { drop result held.now ≡ from_sync held.now }
    ensures within { result ≤ length held.now }
{
    first_sync(held).unwrap_or(held.len())
}

// Returns the place of the first sync byte.
fn first_sync(held: &[u8]) -> Option<usize>
    ensures place { result ≡ position (λ b. b == 71) held.now }
{
    held.iter().position(|b| *b == SYNC_BYTE)
}
