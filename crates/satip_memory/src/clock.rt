//! A clock and a pacer over memory.

ghost use Rattle.std.specs.Prelude.{◌≡◌, IfOk, true};

use satip_base::Want;
use satip_world::{Clock, Pacer};
use std::alloc::Global;
use std::marker::Model;

/// A clock that shows given moments. Once they are used up it shows 0, and no longer exposes its
/// readings.
#[derive(Drop)]
pub struct MemoryClock {
    moments: Vec<u64>,
    next: usize,
    told: bool,
}

impl Model for MemoryClock {
    ghost use Rattle.std.specs.Prelude.{◌≤◌, take, length};
    ghost use Rattle.satip_world.specs.Dials.{Dial};

    ghost Value = { Dial };

    ghost view = { λ c. record { readings = take c.next c.moments.items; told = c.told } };

    ghost invariant = { λ c. c.next ≤ length c.moments.items };
}

impl MemoryClock {
    ghost use Rattle.satip_world.specs.Dials.{fresh_dial};

    /// Creates a clock that shows these moments one after another.
    pub fn make(alloc: Global, moments: &[u64]) -> Result<MemoryClock, Want>
        ensures ok { IfOk result (λ clock. clock ≡ fresh_dial true) }
    {
        match Vec::from_slice(alloc, moments) {
            Ok(moments) => Ok(MemoryClock {
                moments,
                next: 0,
                told: true,
            }),
            Err(_) => Err(Want),
        }
    }
}

impl Clock for MemoryClock {
    ghost dial = { λ c. c };

    fn now(&mut self) -> u64 {
        match self.moments.get(self.next).copied() {
            Some(moment) => {
                self.next += 1;
                moment
            }
            None => {
                self.told = false;
                0
            }
        }
    }
}

/// A pacer that only counts.
#[derive(Drop)]
pub struct MemoryPacer {
    pauses: u64,
}

impl Model for MemoryPacer {
    ghost use Rattle.std.specs.Prelude.{ℕ};

    ghost Value = { ℕ };

    ghost view = { λ p. p.pauses };
}

impl MemoryPacer {
    /// Creates a pacer that made no pause.
    pub fn new() -> MemoryPacer
        ensures none { result ≡ 0 }
    {
        MemoryPacer { pauses: 0 }
    }

    /// Returns the count of pauses.
    pub fn pauses(&self) -> u64
        ensures pauses { result ≡ self.now }
    {
        self.pauses
    }
}

impl Pacer for MemoryPacer {
    ghost pauses = { λ p. p };

    fn pause(&mut self) {
        self.pauses = self.pauses.saturating_add(1);
    }
}
