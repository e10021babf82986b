//! The datagrams of a burst.
ghost use Rattle.std.specs.Prelude.{◌≡◌, ◌<◌, ◌≤◌, true, [], ◌∷◌, length, IfOk, IsSomeAnd, slice_get};
ghost use Rattle.satip_base.specs.Bundles.{Bundled};
ghost use Rattle.satip_world.specs.Deliveries.{Delivers};
ghost use Rattle.satip_pump.specs.Bundles.{empty_bundle, has_room};

use satip_base::limits::{EVENT_BYTES, EVENT_DATAGRAMS};
use satip_base::{Datagrams, Out, Want};
use satip_world::Outlet;
use std::alloc::Global;
use std::marker::Model;

const BYTE_ROOM: usize = 1310720;

const COUNT_ROOM: usize = 1024;

/// Datagrams that are sent later: at most 1024 of them, with at most 1310720 bytes together. `make`
/// takes all memory.
#[derive(Drop)]
pub struct Batch {
    datagrams: Datagrams,
}

impl Model for Batch {
    ghost use Rattle.std.specs.Prelude.{◌≡◌};
    ghost use Rattle.satip_base.specs.Bundles.{Bundle};

    ghost Value = { Bundle };

    ghost view = { λ b. b.datagrams };

    ghost invariant = { λ b. (b.datagrams.byte_room ≡ 1310720) × (b.datagrams.count_room ≡ 1024) };
}

impl Batch {
    /// Takes all the memory that a batch ever uses.
    pub fn make(alloc: Global) -> Result<Batch, Want>
        ensures ok { IfOk result (λ batch. batch ≡ empty_bundle) }
    {
        let datagrams = Datagrams::make(alloc, BYTE_ROOM, COUNT_ROOM)?;
        Ok(Batch { datagrams })
    }

    /// Returns whether there is room for the datagrams of any event.
    pub fn has_room(&self) -> bool
        ensures room { result ≡ has_room self.now }
    {
        EVENT_BYTES <= self.datagrams.byte_spare()
            && EVENT_DATAGRAMS <= self.datagrams.count_spare()
    }

    /// Appends the datagrams of an event.
    pub fn append(&mut self, out: &Out)
        requires room { has_room self.old ≡ true }
        ensures bundled { Bundled self.old out.now.datagrams self.new }
    {
        for place in 0..out.count() {
            self.append_one(out, place);
        }
    }

    fn append_one(&mut self, out: &Out, place: usize)
        requires within { place < length out.now.datagrams }
        requires count { 1 ≤ self.old.count_spare }
        requires bytes { IsSomeAnd (slice_get out.now.datagrams place)
            (λ datagram. length datagram.bytes ≤ self.old.byte_spare) }
        ensures bundled { IsSomeAnd (slice_get out.now.datagrams place)
            (λ datagram. Bundled self.old (datagram ∷ []) self.new) }
    {
        match out.datagram(place) {
            Some((to, bytes)) => self.datagrams.append(to, bytes),
            None => unreachable!(),
        }
    }

    /// Sends the datagrams, in order. Leaves out one that can't be sent.
    pub fn post<O: Outlet>(&self, outlet: &mut O)
        requires held { (O.outbox outlet.old).held ≡ true }
        ensures held { (O.outbox outlet.new).held ≡ true }
        ensures delivers { Delivers O.tells (O.outbox outlet.old) (O.outbox outlet.new)
            self.now.datagrams }
    {
        for place in 0..self.datagrams.count() {
            self.post_one(place, outlet);
        }
    }

    fn post_one<O: Outlet>(&self, place: usize, outlet: &mut O)
        requires within { place < length self.now.datagrams }
        requires held { (O.outbox outlet.old).held ≡ true }
        ensures held { (O.outbox outlet.new).held ≡ true }
        ensures delivers { IsSomeAnd (slice_get self.now.datagrams place)
            (λ datagram. Delivers O.tells (O.outbox outlet.old) (O.outbox outlet.new)
            (datagram ∷ [])) }
    {
        match self.datagrams.datagram(place) {
            Some((to, bytes)) => {
                outlet.send(to, bytes);
            }
            None => unreachable!(),
        }
    }

    /// Drops all datagrams.
    pub fn clear(&mut self)
        ensures empty { self.new ≡ empty_bundle }
    {
        self.datagrams.clear();
    }
}
