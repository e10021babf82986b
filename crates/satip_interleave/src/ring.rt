//! A queue of bytes in a ring, whose memory `make` takes.

ghost use Rattle.std.specs.Prelude.{◌≡◌, ℕ, ◌+◌, ◌<◌, ◌≤◌, List, [], ◌++◌, length, take, drop, slice_index, IfOk};
ghost use Rattle.satip_base.specs.Output.{Wrote};
ghost use Rattle.satip_interleave.specs.Rings.{turned, overwritten};

use satip_base::{Out, Want};
use std::alloc::Global;
use std::marker::Model;

/// The largest number of bytes in a ring.
pub(crate) const RING_BYTES: usize = 524288;

/// At most 524288 bytes, first in, first out. A clause sees the list of the bytes.
#[derive(Drop)]
pub(crate) struct Ring {
    bytes: Vec<u8>,
    start: usize,
    len: usize,
}

impl Model for Ring {
    ghost use Rattle.std.specs.Prelude.{List, ℕ};

    ghost Value = { List ℕ };

    ghost use Rattle.satip_interleave.specs.Rings.{held_bytes, IsRing};

    ghost view = { held_bytes };

    ghost invariant = { IsRing };
}

impl Ring {
    /// Takes the memory of all bytes. The ring holds none.
    pub(crate) fn make(alloc: Global) -> Result<Ring, Want>
        ensures empty { IfOk result (λ ring. ring ≡ []) }
    {
        let mut bytes = Vec::new(alloc);
        match bytes.resize(RING_BYTES, 0) {
            Ok(()) => Ok(Ring {
                bytes,
                start: 0,
                len: 0,
            }),
            Err(_) => Err(Want),
        }
    }

    /// Returns the number of bytes that it holds.
    pub(crate) fn len(&self) -> usize
        ensures count { result ≡ length self.now }
        ensures limit { length self.now ≤ 524288 }
    {
        self.len
    }

    /// Returns the byte at a place, counted from 0.
    pub(crate) fn byte(&self, at: usize) -> u8
        requires within { at < length self.now }
        ensures byte { result ≡ slice_index self.now at }
    {
        self.bytes[place_behind(self.start, at)]
    }

    /// Drops all bytes.
    pub(crate) fn clear(&mut self)
        ensures empty { self.new ≡ [] }
    {
        self.len = 0;
    }

    /// Appends a piece.
    pub(crate) fn push(&mut self, piece: &[u8])
        requires room { length self.old + length piece.now ≤ 524288 }
        ensures pushed { self.new ≡ self.old ++ piece.now }
    {
        put_around(&mut self.bytes, self.start, self.len, piece);
        self.len += piece.len();
    }

    /// Moves the first `count` bytes to the reply.
    pub(crate) fn pop(&mut self, count: usize, out: &mut Out)
        requires within { count ≤ length self.old }
        requires room { count ≤ out.old.reply_spare }
        ensures rest { self.new ≡ drop count self.old }
        ensures wrote { Wrote out.old (take count self.old) out.new }
    {
        write_around(&self.bytes, self.start, count, out);
        self.start = place_behind(self.start, count);
        self.len -= count;
    }
}

// Returns the place `count` bytes after `start`, around the end of the ring.
fn place_behind(start: usize, count: usize) -> usize
    requires start { start < 524288 }
    requires count { count ≤ 524288 }
    ensures before_end { start + count < 524288 → result ≡ start + count }
    ensures around_end { 524288 ≤ start + count → result + 524288 ≡ start + count }
    ensures within { result < 524288 }
{
    let place = start + count;
    if place < RING_BYTES {
        place
    } else {
        place - RING_BYTES
    }
}

// Writes a piece at a place that is counted from `start` on.
fn put_around(bytes: &mut [u8], start: usize, at: usize, piece: &[u8])
    requires start { start ≤ length bytes.old }
    requires room { at + length piece.now ≤ length bytes.old }
    ensures put { turned start bytes.new ≡ overwritten at piece.now (turned start bytes.old) }
{
    let (second, first) = bytes.split_at_mut(start);
    put_across(first, second, at, piece);
}

// Writes a piece at a place of two slices that are read as one.
fn put_across(first: &mut [u8], second: &mut [u8], at: usize, piece: &[u8])
    requires room { at + length piece.now ≤ length first.old + length second.old }
    ensures put { first.new ++ second.new ≡ overwritten at piece.now (first.old ++ second.old) }
{
    let split = first.len();
    if split <= at {
        put_at(second, at - split, piece);
    } else if piece.len() <= split - at {
        put_at(first, at, piece);
    } else {
        let (front, back) = piece.split_at(split - at);
        put_at(first, at, front);
        put_at(second, 0, back);
    }
}

fn put_at(bytes: &mut [u8], at: usize, piece: &[u8])
    requires room { at + length piece.now ≤ length bytes.old }
    ensures put { bytes.new ≡ overwritten at piece.now bytes.old }
{
    bytes[at..at + piece.len()].copy_from_slice(piece);
}

// Writes the first bytes, counted from `start` on, to the reply.
fn write_around(bytes: &[u8], start: usize, count: usize, out: &mut Out)
    requires start { start ≤ length bytes.now }
    requires count { count ≤ length bytes.now }
    requires room { count ≤ out.old.reply_spare }
    ensures wrote { Wrote out.old (take count (turned start bytes.now)) out.new }
{
    let (second, first) = bytes.split_at(start);
    if count <= first.len() {
        out.write(first.split_at(count).0);
    } else {
        out.write(first);
        out.write(second.split_at(count - first.len()).0);
    }
}
