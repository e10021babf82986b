//! An outlet over memory.

ghost use Rattle.std.specs.Prelude.{◌≡◌, ◌++◌, [], ◌∷◌, map, IfOk, IsTrue, false, length, slice_get};
ghost use Rattle.satip_base.specs.Output.{shown};
ghost use Rattle.satip_memory.specs.Kept.{datagram_of};

use crate::failures::Failures;
use satip_base::{Address, Put, Want};
use satip_world::Outlet;
use std::alloc::Global;
use std::marker::Model;

// A datagram, and its address.
#[derive(Drop)]
struct Mail {
    to: Address,
    bytes: Vec<u8>,
}

/// An outlet that keeps the datagrams sent.
#[derive(Drop)]
pub struct MemoryOutlet {
    alloc: Global,
    sent: Vec<Mail>,
    failures: Failures,
    faults: u64,
    held: bool,
}

impl Model for MemoryOutlet {
    ghost use Rattle.std.specs.Prelude.{map};
    ghost use Rattle.satip_world.specs.Outboxes.{Outbox};
    ghost use Rattle.satip_memory.specs.Kept.{datagram_of};

    ghost Value = { Outbox };

    ghost view = { λ o. record {
      sent = map datagram_of o.sent.items;
      faults = o.faults;
      held = o.held;
    } };
}

impl MemoryOutlet {
    ghost use Rattle.satip_world.specs.Outboxes.{fresh_outbox};

    /// Creates an empty outlet. The sends with a number, from 1, in `failing` fail.
    pub fn make(alloc: Global, failing: &[u64]) -> Result<MemoryOutlet, Want>
        ensures ok { IfOk result (λ outlet. outlet ≡ fresh_outbox) }
    {
        Ok(MemoryOutlet {
            alloc,
            sent: Vec::new(alloc),
            failures: Failures::make(alloc, failing)?,
            faults: 0,
            held: false,
        })
    }

    /// Returns the count of datagrams sent.
    pub fn count(&self) -> usize
        ensures count { result ≡ length self.now.sent }
    {
        self.sent.len()
    }

    /// Returns the datagram at a place, from 0, and its address, or None if fewer were sent.
    pub fn datagram(&self, place: usize) -> Option<(Address, &[u8])>
        ensures datagram { shown result ≡ slice_get self.now.sent place }
    {
        match self.sent.get(place) {
            Some(mail) => Some((mail.to, &mail.bytes)),
            None => None,
        }
    }
}

// Keeps a datagram. Returns false if it is out of memory.
fn keep(alloc: Global, sent: &mut Vec<Mail>, to: Address, bytes: &[u8]) -> bool
    ensures kept { IsTrue result → map datagram_of sent.new.items
        ≡ map datagram_of sent.old.items ++ record { to = to; bytes = bytes.now } ∷ [] }
    ensures same { result ≡ false → sent.new.items ≡ sent.old.items }
{
    match Vec::from_slice(alloc, bytes) {
        Ok(bytes) => sent.push(Mail { to, bytes }).is_ok(),
        Err(_) => false,
    }
}

impl Outlet for MemoryOutlet {
    ghost tells = { Unit {0} };

    ghost outbox = { λ o. o };

    fn lock(&mut self) {
        self.held = true;
    }

    fn unlock(&mut self) {
        self.held = false;
    }

    fn send(&mut self, to: Address, bytes: &[u8]) -> Put {
        if self.failures.meets_one() {
            self.faults = self.faults.saturating_add(1);
            return Put::Failed;
        }
        if keep(self.alloc, &mut self.sent, to, bytes) {
            return Put::Whole;
        }
        self.faults = self.faults.saturating_add(1);
        Put::Failed
    }
}
