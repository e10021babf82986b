//! Datagrams that wait to be sent.

ghost use Rattle.std.specs.Prelude.{◌≡◌, ◌≢◌, ◌<◌, ◌≤◌, [], ◌∷◌, length, IfOk, slice_get, slice_range};
ghost use Rattle.satip_base.specs.Output.{shown};
ghost use Rattle.satip_base.specs.Bundles.{no_datagrams, FillsRoom, Bundled, Lengthened};

use crate::lists::{append_reserved, with_room};
use crate::network::Address;
use crate::outcomes::Want;
use std::alloc::Global;
use std::marker::Model;

/// A list of datagrams with fixed limits for their count and for their bytes together. `make`
/// allocates all its memory.
#[derive(Drop)]
pub struct Datagrams {
    bytes: Vec<u8>,
    heads: Vec<Head>,
    byte_room: usize,
    count_room: usize,
}

// The address of a datagram, and the range of its bytes.
#[derive(Clone, Copy, Debug, PartialEq, Eq)]
struct Head {
    to: Address,
    start: usize,
    end: usize,
}

impl Model for Datagrams {
    ghost use Rattle.satip_base.specs.Bundles.{Bundle};

    ghost Value = { Bundle };

    ghost use Rattle.satip_base.specs.DatagramFields.{bundle_of, IsSound};

    ghost view = { bundle_of };

    ghost invariant = { IsSound };
}

impl Datagrams {
    /// Allocates memory for `byte_room` bytes and `count_room` datagrams. `Want` is out of memory.
    pub fn make(alloc: Global, byte_room: usize, count_room: usize) -> Result<Datagrams, Want>
        ensures ok { IfOk result (λ datagrams. datagrams ≡ no_datagrams byte_room count_room) }
    {
        Ok(Datagrams {
            bytes: with_room(alloc, byte_room)?,
            heads: with_room(alloc, count_room)?,
            byte_room,
            count_room,
        })
    }

    /// Removes all datagrams and keeps the memory.
    pub fn clear(&mut self)
        ensures empty { self.new ≡ no_datagrams self.old.byte_room self.old.count_room }
    {
        self.bytes.clear();
        self.heads.clear();
    }

    /// Returns the number of datagrams.
    pub fn count(&self) -> usize
        ensures count { result ≡ length self.now.datagrams }
        ensures room { FillsRoom self.now }
    {
        self.heads.len()
    }

    /// Returns how many more bytes there is room for.
    pub fn byte_spare(&self) -> usize
        ensures spare { result ≡ self.now.byte_spare }
    {
        self.byte_room - self.bytes.len()
    }

    /// Returns how many more datagrams there is room for.
    pub fn count_spare(&self) -> usize
        ensures spare { result ≡ self.now.count_spare }
    {
        self.count_room - self.heads.len()
    }

    /// Returns the datagram at `place`, from 0, and its address; `None` if `place` isn't below the
    /// count.
    pub fn datagram(&self, place: usize) -> Option<(Address, &[u8])>
        ensures datagram { shown result ≡ slice_get self.now.datagrams place }
    {
        if place >= self.heads.len() {
            return None;
        }
        let head = self.heads[place];
        Some((head.to, part(&self.bytes, head)))
    }

    /// Appends a datagram. The caller checks first that there is room.
    pub fn append(&mut self, to: Address, bytes: &[u8])
        requires count { self.old.count_spare ≢ 0 }
        requires bytes { length bytes.now ≤ self.old.byte_spare }
        ensures bundled { Bundled self.old (record { to = to; bytes = bytes.now } ∷ []) self.new }
    {
        let start = self.bytes.len();
        append_reserved(&mut self.bytes, bytes);
        let end = self.bytes.len();
        self.heads.push_reserved(Head { to, start, end });
    }

    /// Appends bytes to the last datagram. The caller checks first that there is one and that there
    /// is room.
    pub fn extend(&mut self, bytes: &[u8])
        requires some { 0 < length self.old.datagrams }
        requires bytes { length bytes.now ≤ self.old.byte_spare }
        ensures lengthened { Lengthened self.old bytes.now self.new }
    {
        append_reserved(&mut self.bytes, bytes);
        let last = self.heads.len() - 1;
        let end = self.bytes.len();
        self.heads[last].end = end;
    }
}

fn part(bytes: &[u8], head: Head) -> &[u8]
    requires ordered { head.start ≤ head.end }
    requires within { head.end ≤ length bytes.now }
    ensures part { result.now ≡ slice_range bytes.now head.start head.end }
{
    &bytes[head.start..head.end]
}
