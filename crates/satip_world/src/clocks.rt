//! Clocks and pauses.

ghost use Rattle.std.specs.Prelude.{ℕ, suc, ◌≤◌};

/// A source of the time.
pub trait Clock {
    ghost use Rattle.satip_world.specs.Dials.{Dial, Reads};

    // The readings so far, and whether they are exposed.
    ghost dial: { Self → Dial };

    /// Returns the time in milliseconds of Unix time. It may be less than the time before.
    fn now(&mut self) -> u64
        ensures reads { Reads (dial self.old) (dial self.new) result };
}

/// A pause for a thread that has nothing to do.
pub trait Pacer {
    ghost use Rattle.satip_world.specs.Counts.{Rises};

    // The count of pauses, which saturates.
    ghost pauses: { Self → ℕ };

    /// Waits for some time.
    fn pause(&mut self)
        ensures pauses { Rises (pauses self.old) (pauses self.new) }
        ensures once { pauses self.new ≤ suc (pauses self.old) };
}
