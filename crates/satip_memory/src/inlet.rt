//! An inlet over memory.

ghost use Rattle.std.specs.Prelude.{◌≡◌, ◌++◌, [], ◌∷◌, ◌≤◌, IfOk, IfSome, IsTrue, false, length, map};
ghost use Rattle.satip_memory.specs.Mails.{bytes_of};

use satip_base::Want;
use satip_world::{Inlet, Received};
use std::alloc::Global;
use std::marker::Model;

// A datagram that is to come, or that came.
#[derive(Drop)]
struct Mail {
    bytes: Vec<u8>,
}

/// An inlet that gives datagrams one after another. Once they are used up it gives none.
#[derive(Drop)]
pub struct MemoryInlet {
    alloc: Global,
    port: u16,
    coming: Vec<Mail>,
    next: usize,
    given: Vec<Mail>,
    count: u64,
    calls: u64,
    idle: Vec<u64>,
    failing: Vec<u64>,
    idles: u64,
    faults: u64,
}

impl Model for MemoryInlet {
    ghost use Rattle.std.specs.Prelude.{◌≤◌, map};
    ghost use Rattle.satip_world.specs.Inboxes.{Inbox};
    ghost use Rattle.satip_memory.specs.Mails.{bytes_of};

    ghost Value = { Inbox };

    ghost view = { λ i. record {
      port = i.port;
      count = i.count;
      given = map bytes_of i.given.items;
      idles = i.idles;
      faults = i.faults;
    } };

    ghost invariant = { λ i. (1 ≤ i.port) × (i.port ≤ 65534) };
}

impl MemoryInlet {
    ghost use Rattle.satip_world.specs.Inboxes.{fresh_inbox};

    /// Creates an inlet at a port from 1 to 65534 that gives these datagrams. Of the calls of
    /// `receive`, counted from 1, those in `idle` find none and those in `failing` fail.
    pub fn make(
        alloc: Global,
        port: u16,
        datagrams: &[&[u8]],
        idle: &[u64],
        failing: &[u64],
    ) -> Result<MemoryInlet, Want>
        requires some { 1 ≤ port }
        requires next { port ≤ 65534 }
        ensures ok { IfOk result (λ inlet. inlet ≡ fresh_inbox port) }
    {
        let mut coming = Vec::new(alloc);
        for datagram in datagrams {
            if !keep(alloc, &mut coming, datagram) {
                return Err(Want);
            }
        }
        let (Ok(idle), Ok(failing)) = (
            Vec::from_slice(alloc, idle),
            Vec::from_slice(alloc, failing),
        ) else {
            return Err(Want);
        };
        Ok(MemoryInlet {
            alloc,
            port,
            coming,
            next: 0,
            given: Vec::new(alloc),
            count: 0,
            calls: 0,
            idle,
            failing,
            idles: 0,
            faults: 0,
        })
    }
}

// Keeps a datagram. Returns false if it is out of memory.
fn keep(alloc: Global, mails: &mut Vec<Mail>, bytes: &[u8]) -> bool
    ensures kept { IsTrue result → map bytes_of mails.new.items
        ≡ map bytes_of mails.old.items ++ bytes.now ∷ [] }
    ensures same { result ≡ false → mails.new.items ≡ mails.old.items }
{
    match Vec::from_slice(alloc, bytes) {
        Ok(bytes) => mails.push(Mail { bytes }).is_ok(),
        Err(_) => false,
    }
}

// Copies the datagram at a place to the front of the buffer, as far as it has room. Returns the
// count of bytes copied, or None if no datagram is left.
fn copy(coming: &[Mail], place: usize, buf: &mut [u8]) -> Option<usize>
    ensures within { IfSome result (λ size. size ≤ length buf.new) }
{
    let Some(mail) = coming.get(place) else {
        return None;
    };
    let size = mail.bytes.len().min(buf.len());
    buf[..size].copy_from_slice(&mail.bytes[..size]);
    Some(size)
}

impl Inlet for MemoryInlet {
    ghost tells = { Unit {0} };

    ghost inbox = { λ i. i };

    fn port(&self) -> u16 {
        self.port
    }

    fn receive(&mut self, buf: &mut [u8]) -> Received {
        self.calls = self.calls.saturating_add(1);
        if self.failing.contains(&self.calls) {
            self.faults = self.faults.saturating_add(1);
            return Received::Failed;
        }
        if self.idle.contains(&self.calls) {
            self.idles = self.idles.saturating_add(1);
            return Received::Idle;
        }
        let Some(size) = copy(&self.coming, self.next, buf) else {
            self.idles = self.idles.saturating_add(1);
            return Received::Idle;
        };
        if !keep(self.alloc, &mut self.given, &buf[..size]) {
            self.faults = self.faults.saturating_add(1);
            return Received::Failed;
        }
        self.next = self.next.saturating_add(1);
        self.count = self.count.saturating_add(1);
        Received::Got(size)
    }
}
