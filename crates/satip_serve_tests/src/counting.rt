//! An outlet, a clock and a pacer that count their calls. They take no memory once a run begins.

ghost use Rattle.std.specs.Prelude.{◌≡◌, IfOk, true};

use crate::deeds::{Deeds, Gate, TRIES};
use satip_base::{Address, Put, Want};
use satip_world::{Clock, Outlet, Pacer};
use std::alloc::Global;
use std::marker::Model;
use std::thread;

// The bytes before the transport packets of a datagram (RFC 3550, 5.1), and those of a packet.
const HEAD: u64 = 12;

const PACKET: u64 = 188;

/// An outlet that counts transport packets that go to a port for RTP, and keeps nothing.
#[derive(Drop)]
pub struct CountingOutlet<'a> {
    deeds: &'a Deeds,
    port: u16,
    held: bool,
}

impl<'a> Model for CountingOutlet<'a> {
    ghost use Rattle.std.specs.Prelude.{[]};
    ghost use Rattle.satip_world.specs.Outboxes.{Outbox};

    ghost Value = { Outbox };

    ghost view = { λ o. record { sent = []; faults = 0; held = o.held } };
}

impl<'a> CountingOutlet<'a> {
    ghost use Rattle.satip_world.specs.Outboxes.{fresh_outbox};

    pub fn new(deeds: &'a Deeds, port: u16) -> CountingOutlet<'a>
        ensures fresh { result ≡ fresh_outbox }
    {
        CountingOutlet {
            deeds,
            port,
            held: false,
        }
    }
}

impl<'a> Outlet for CountingOutlet<'a> {
    ghost tells = { ⊥ };

    ghost outbox = { λ o. o };

    fn lock(&mut self) {
        self.held = true;
    }

    fn unlock(&mut self) {
        self.held = false;
    }

    fn send(&mut self, to: Address, bytes: &[u8]) -> Put {
        if to.port == self.port {
            let payload = (bytes.len() as u64).saturating_sub(HEAD);
            self.deeds.send(payload / PACKET);
        }
        Put::Whole
    }
}

// The moments of a clock, more than any run of these tests reads.
const MOMENTS: u64 = 1000;

/// A clock that shows moments from 0 on, each `step` after the one before. Once they are used up it
/// shows 0, and no longer exposes its readings.
#[derive(Drop)]
pub struct SteppedClock<'a> {
    deeds: &'a Deeds,
    moments: Vec<u64>,
    next: usize,
    told: bool,
}

impl<'a> Model for SteppedClock<'a> {
    ghost use Rattle.std.specs.Prelude.{◌≤◌, take, length};
    ghost use Rattle.satip_world.specs.Dials.{Dial};

    ghost Value = { Dial };

    ghost view = { λ c. record { readings = take c.next c.moments.items; told = c.told } };

    ghost invariant = { λ c. c.next ≤ length c.moments.items };
}

impl<'a> SteppedClock<'a> {
    ghost use Rattle.satip_world.specs.Dials.{fresh_dial};

    pub fn make(alloc: Global, deeds: &'a Deeds, step: u64) -> Result<SteppedClock<'a>, Want>
        ensures fresh { IfOk result (λ clock. clock ≡ fresh_dial true) }
    {
        let mut moments = Vec::new(alloc);
        let mut moment: u64 = 0;
        for _ in 0..MOMENTS {
            if moments.push(moment).is_err() {
                return Err(Want);
            }
            moment = moment.saturating_add(step);
        }
        Ok(SteppedClock {
            deeds,
            moments,
            next: 0,
            told: true,
        })
    }

    /// Tells whether all its readings are exposed.
    pub fn is_told(&self) -> bool
        ensures told { result ≡ self.now.told }
    {
        self.told
    }
}

impl<'a> Clock for SteppedClock<'a> {
    ghost dial = { λ c. c };

    fn now(&mut self) -> u64 {
        self.deeds.read();
        match self.moments.get(self.next).copied() {
            Some(moment) => {
                self.next += 1;
                moment
            }
            None => {
                self.told = false;
                0
            }
        }
    }
}

/// A pacer whose pause looks so often at what was done, and then until a gate is open, but not for
/// ever.
#[derive(Drop)]
pub struct LookingPacer<'a> {
    deeds: &'a Deeds,
    looks: u64,
    gate: Gate,
    pauses: u64,
}

impl<'a> LookingPacer<'a> {
    pub fn new(deeds: &'a Deeds, looks: u64, gate: Gate) -> LookingPacer<'a> {
        LookingPacer {
            deeds,
            looks,
            gate,
            pauses: 0,
        }
    }

    fn look(&self) {
        for _ in 0..self.looks {
            let _ = self.deeds.open(self.gate);
        }
        for _ in 0..TRIES {
            if self.deeds.open(self.gate) {
                return;
            }
        }
    }
}

impl<'a> Pacer for LookingPacer<'a> {
    ghost pauses = { λ p. p.pauses };

    fn pause(&mut self) {
        if self.pauses == 0 {
            self.deeds.pause();
        }
        self.look();
        thread::yield_now();
        self.pauses = self.pauses.saturating_add(1);
    }
}
