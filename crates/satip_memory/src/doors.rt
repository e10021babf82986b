//! Doors over memory.

ghost use Rattle.std.specs.Prelude.{◌≡◌, ◌++◌, [], ◌∷◌, map, true, false, IfOk, IfSome, IfNone, IsTrue, OnOk, OnErr, All};
ghost use Rattle.satip_world.specs.Lines.{Line, fresh_line};
ghost use Rattle.satip_memory.specs.Lobby.{arrival_of, return_of, IsUnused};

use crate::conn::MemoryConn;
use crate::failures::Failures;
use satip_base::{Peer, Want};
use satip_world::{Conn, ConnEnd, Door, DoorKind, Doors};
use std::alloc::Global;
use std::marker::Model;

// A connection that is to come.
#[derive(Drop)]
struct Coming {
    kind: DoorKind,
    peer: Peer,
    conn: MemoryConn,
}

// A connection that came.
#[derive(Clone, Copy, Debug, PartialEq, Eq)]
struct Given {
    kind: DoorKind,
    peer: Peer,
}

/// A connection that was handed back.
#[derive(Drop)]
pub struct Handed {
    /// RTSP or HTTP.
    pub kind: DoorKind,
    /// The client's address.
    pub peer: Peer,
    /// The connection.
    pub conn: MemoryConn,
    /// The end that it was handed back with.
    pub end: ConnEnd,
}

/// Doors by which given connections come. They keep the connections that are handed back.
#[derive(Drop)]
pub struct MemoryDoors {
    limit: u32,
    count: u64,
    ended: bool,
    told: bool,
    coming: Vec<Coming>,
    given: Vec<Given>,
    returned: Vec<Handed>,
    idle_calls: Failures,
    failures: Failures,
    idles: u64,
    faults: u64,
}

impl Model for MemoryDoors {
    ghost use Rattle.std.specs.Prelude.{map, All};
    ghost use Rattle.satip_world.specs.Halls.{Hall};
    ghost use Rattle.satip_memory.specs.Lobby.{arrival_of, return_of, IsUnused};

    ghost Value = { Hall };

    ghost view = { λ d. record {
      limit = d.limit;
      count = d.count;
      ended = d.ended;
      idles = d.idles;
      faults = d.faults;
      told = d.told;
      given = map arrival_of d.given.items;
      returned = map return_of d.returned.items;
    } };

    ghost invariant = { λ d. All IsUnused d.coming.items };
}

impl MemoryDoors {
    ghost use Rattle.satip_world.specs.Halls.{fresh_hall};

    /// Creates doors that end after `limit` connections, or, if it is 0, once no further one is to
    /// come. Of the calls of `next`, counted from 1, those in `idle` find no connection and those
    /// in `failing` fail.
    pub fn make(
        alloc: Global,
        limit: u32,
        idle: &[u64],
        failing: &[u64],
    ) -> Result<MemoryDoors, Want>
        ensures ok { IfOk result (λ doors. doors ≡ fresh_hall limit true) }
    {
        Ok(MemoryDoors {
            limit,
            count: 0,
            ended: false,
            told: true,
            coming: Vec::new(alloc),
            given: Vec::new(alloc),
            returned: Vec::new(alloc),
            idle_calls: Failures::make(alloc, idle)?,
            failures: Failures::make(alloc, failing)?,
            idles: 0,
            faults: 0,
        })
    }

    /// Adds a connection that is to come, after those that were added before.
    pub fn add(&mut self, kind: DoorKind, peer: Peer, conn: MemoryConn) -> Result<(), Want>
        requires fresh { conn ≡ fresh_line }
        ensures same { self.new ≡ self.old }
    {
        append(&mut self.coming, Coming { kind, peer, conn })
    }

    /// Returns the connections that were handed back, in order.
    pub fn returned(&self) -> &[Handed]
        ensures returned { map return_of result.now ≡ self.now.returned }
    {
        &self.returned
    }
}

// Keeps a connection's kind and peer. Returns false if it is out of memory.
fn note(given: &mut Vec<Given>, kind: DoorKind, peer: Peer) -> bool
    ensures kept { IsTrue result → map arrival_of given.new.items
        ≡ map arrival_of given.old.items ++ record { kind = kind; peer = peer } ∷ [] }
{
    given.push(Given { kind, peer }).is_ok()
}

// Keeps a connection that was handed back. Returns false if it is out of memory.
fn keep(returned: &mut Vec<Handed>, handed: Handed) -> bool
    ensures kept { IsTrue result → map return_of returned.new.items
        ≡ map return_of returned.old.items ++ return_of handed ∷ [] }
{
    returned.push(handed).is_ok()
}

// Appends a connection to those that are to come.
fn append(coming: &mut Vec<Coming>, next: Coming) -> Result<(), Want>
    requires unused { All IsUnused coming.old.items }
    requires next { IsUnused next }
    ensures unused { All IsUnused coming.new.items }
{
    match coming.push(next) {
        Ok(()) => Ok(()),
        Err(_) => Err(Want),
    }
}

// Takes out the connection that comes next.
fn take_first(coming: &mut Vec<Coming>) -> Option<Coming>
    requires unused { All IsUnused coming.old.items }
    ensures first { IfSome result IsUnused }
    ensures rest { All IsUnused coming.new.items }
{
    if coming.is_empty() {
        return None;
    }
    Some(coming.remove(0))
}

impl Doors for MemoryDoors {
    type Conn = MemoryConn;

    ghost hall = { λ d. d };

    ghost by_limit = { ⊥ };

    fn next(&mut self) -> Door<MemoryConn> {
        if self.ended {
            return Door::End;
        }
        if self.failures.meets_one() {
            self.faults = self.faults.saturating_add(1);
            return Door::Failed;
        }
        if self.idle_calls.meets_one() {
            self.idles = self.idles.saturating_add(1);
            return Door::Idle;
        }
        if self.limit != 0 && self.count >= self.limit as u64 {
            self.ended = true;
            return Door::End;
        }
        let Some(Coming { kind, peer, conn }) = take_first(&mut self.coming) else {
            self.ended = true;
            return Door::End;
        };
        self.count = self.count.saturating_add(1);
        self.told = note(&mut self.given, kind, peer) && self.told;
        Door::Came { kind, peer, conn }
    }

    fn back(&mut self, conn: MemoryConn, kind: DoorKind, peer: Peer, end: ConnEnd) {
        let handed = Handed {
            kind,
            peer,
            conn,
            end,
        };
        self.told = keep(&mut self.returned, handed) && self.told;
    }
}
