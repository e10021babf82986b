//! The clock that a desk over memory gives a client.

ghost use Rattle.std.specs.Prelude.{◌≡◌};

use satip_memory::MemoryClock;
use satip_world::Clock;
use std::marker::Model;

/// The clock that was put in, or one that shows 0 and exposes no readings.
#[derive(Drop)]
pub struct MemoryMoment {
    clock: Option<MemoryClock>,
}

impl Model for MemoryMoment {
    ghost use Rattle.satip_world.specs.Dials.{Dial};
    ghost use Rattle.satip_memory_desk.specs.Moments.{dial_in};

    ghost Value = { Dial };

    ghost view = { λ m. dial_in m.clock };
}

impl MemoryMoment {
    ghost use Rattle.satip_memory_desk.specs.Moments.{dial_in};

    /// Creates the clock of a desk.
    pub fn new(clock: Option<MemoryClock>) -> MemoryMoment
        ensures dial { result ≡ dial_in clock }
    {
        MemoryMoment { clock }
    }
}

impl Clock for MemoryMoment {
    ghost dial = { λ m. m };

    fn now(&mut self) -> u64 {
        match &mut self.clock {
            Some(clock) => clock.now(),
            None => 0,
        }
    }
}
