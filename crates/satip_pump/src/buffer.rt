//! The part of a recording that was read and not yet given.
ghost use Rattle.std.specs.Prelude.{◌≡◌, ◌+◌, ◌-◌, ◌<◌, ◌≤◌, ◌==◌, [], length, take, drop, position, Some, MatchBool};
ghost use Rattle.satip_ts.specs.Packet.{IsPacket};
ghost use Rattle.satip_ts.specs.Recording.{from_sync};
ghost use Rattle.satip_plain.specs.Pumping.{rest_of};
ghost use Rattle.satip_pump.specs.Buffers.{nothing_read, IsAtFront, CutsOne, CutsNone, Reads, bytes_in};
ghost use Rattle.satip_pump.specs.BufferFields.{packet_at};

use satip_base::{Source, Taken};
use satip_ts::Packet;
use std::marker::Model;

/// The largest number of waiting packets.
pub(crate) const PLACES: usize = 64;

const PACKET_BYTES: usize = 188;

const SYNC_BYTE: u8 = 0x47;

// The bytes of the waiting packets and of less than one packet after them.
const ROOM: usize = 12220;

/// The bytes that were taken from the source. The packets found in them wait in place, at most 64
/// of them. The rest follows them: bytes that were not searched yet.
#[derive(Drop)]
pub(crate) struct Buffer {
    bytes: [u8; ROOM],
    // The place of each packet that was found, and the number of packets that were given.
    starts: [usize; PLACES],
    given: usize,
    found: usize,
    // The bounds of the rest.
    start: usize,
    end: usize,
}

impl Model for Buffer {
    ghost use Rattle.satip_pump.specs.Buffers.{Buffered};
    ghost use Rattle.satip_pump.specs.BufferFields.{buffered, IsSound};

    ghost Value = { Buffered };

    ghost view = { buffered };

    ghost invariant = { IsSound };
}

impl Buffer {
    /// Creates a buffer into which nothing was read.
    pub(crate) fn new() -> Buffer
        ensures empty { result ≡ nothing_read }
    {
        Buffer {
            bytes: [0; ROOM],
            starts: [0; PLACES],
            given: 0,
            found: 0,
            start: 0,
            end: 0,
        }
    }

    /// Returns the number of waiting packets.
    pub(crate) fn count(&self) -> usize
        ensures count { result ≡ length self.now.packets }
        ensures most { self.now.room + length self.now.packets ≤ 64 }
    {
        self.found - self.given
    }

    /// Returns the first waiting packet.
    pub(crate) fn first(&self) -> Option<Packet>
        ensures first { IsAtFront self.now.packets result }
    {
        if self.given == self.found {
            return None;
        }
        packet_from(&self.bytes, self.starts[self.given])
    }

    /// Drops the first packet.
    pub(crate) fn pass(&mut self)
        requires some { 1 ≤ length self.old.packets }
        ensures packets { self.new.packets ≡ rest_of self.old.packets }
        ensures rest { self.new.rest ≡ self.old.rest }
        ensures room { self.new.room ≡ self.old.room }
    {
        self.given += 1;
    }

    /// Drops all packets and the rest.
    pub(crate) fn clear(&mut self)
        ensures empty { self.new ≡ nothing_read }
    {
        self.given = 0;
        self.found = 0;
        self.start = 0;
        self.end = 0;
    }

    /// Makes room for 64 packets again, when no packet waits.
    pub(crate) fn renew(&mut self)
        requires none { self.old.packets ≡ [] }
        ensures renewed { self.new ≡ record self.old { room = 64 } }
    {
        self.given = 0;
        self.found = 0;
    }

    /// Drops the bytes of the rest before the next sync byte, and appends the packet that begins
    /// there to the waiting ones. Returns false if fewer than 188 bytes are left from there on.
    pub(crate) fn cut(&mut self) -> bool
        requires room { 1 ≤ self.old.room }
        ensures cut { MatchBool result (CutsOne self.old self.new) (CutsNone self.old self.new) }
    {
        self.start += bytes_before_sync(&self.bytes[self.start..self.end]);
        if self.end - self.start < PACKET_BYTES {
            return false;
        }
        self.starts[self.found] = self.start;
        self.found += 1;
        self.start += PACKET_BYTES;
        true
    }

    /// Moves the rest to the front if no packet waits. Returns the number of bytes that there is
    /// room for.
    pub(crate) fn make_space(&mut self) -> usize
        ensures packets { self.new.packets ≡ self.old.packets }
        ensures rest { self.new.rest ≡ self.old.rest }
        ensures room { self.new.room ≡ self.old.room }
        ensures space { result ≡ self.new.space }
        ensures whole { self.old.packets ≡ [] → self.new.space + length self.old.rest ≡ 12220 }
    {
        if self.given == self.found {
            self.end = move_to_front(&mut self.bytes, self.start, self.end);
            self.start = 0;
        }
        ROOM - self.end
    }

    /// Appends bytes of the source to the rest, at most those of `packets` packets.
    pub(crate) fn take<F: Source>(&mut self, source: &mut F, packets: usize) -> Taken
        requires space { 1 ≤ self.old.space }
        requires some { 1 ≤ packets }
        requires most { packets ≤ 64 }
        ensures packets { self.new.packets ≡ self.old.packets }
        ensures room { self.new.room ≡ self.old.room }
        ensures reads { Reads F.tells (F.feed source.old).left (F.feed source.new).left
            (F.feed source.new).faults self.old.rest self.new.rest result }
    {
        let count = (PACKET_BYTES * packets).min(ROOM - self.end);
        self.take_bytes(source, count)
    }

    // Appends at most `count` bytes of the source to the rest.
    fn take_bytes<F: Source>(&mut self, source: &mut F, count: usize) -> Taken
        requires some { 1 ≤ count }
        requires space { count ≤ self.old.space }
        ensures packets { self.new.packets ≡ self.old.packets }
        ensures room { self.new.room ≡ self.old.room }
        ensures reads { Reads F.tells (F.feed source.old).left (F.feed source.new).left
            (F.feed source.new).faults self.old.rest self.new.rest result }
    {
        let taken = source.take(&mut self.bytes[self.end..self.end + count]);
        self.end += bytes_in(taken);
        taken
    }
}

// Returns the number of bytes taken.
fn bytes_in(taken: Taken) -> usize
    ensures count { result ≡ bytes_in taken }
{
    match taken {
        Taken::Got(count) => count,
        Taken::End => 0,
        Taken::Failed => 0,
    }
}

// Returns the packet that starts at a place.
fn packet_from(bytes: &[u8; ROOM], start: usize) -> Option<Packet>
    requires within { start + 188 ≤ 12220 }
    requires packet { IsPacket (packet_at bytes.now start) }
    ensures packet { result ≡ Some (packet_at bytes.now start) }
{
    match bytes[start..].first_chunk::<PACKET_BYTES>() {
        Some(bytes) => Packet::of(bytes),
        None => unreachable!(),
    }
}

// Returns the number of bytes before the first sync byte.
fn bytes_before_sync(rest: &[u8]) -> usize
    ensures sync { drop result rest.now ≡ from_sync rest.now }
    ensures within { result ≤ length rest.now }
{
    first_sync(rest).unwrap_or(rest.len())
}

// Returns the place of the first sync byte.
fn first_sync(rest: &[u8]) -> Option<usize>
    ensures place { result ≡ position (λ b. b == 71) rest.now }
{
    rest.iter().position(|b| *b == SYNC_BYTE)
}

// Moves the rest to the front, and returns where it then ends.
fn move_to_front(bytes: &mut [u8; ROOM], start: usize, end: usize) -> usize
    requires ordered { start ≤ end }
    requires within { end ≤ 12220 }
    ensures end { result ≡ end - start }
    ensures moved { take result bytes.new ≡ take (end - start) (drop start bytes.old) }
{
    bytes.copy_within(start..end, 0);
    end - start
}
