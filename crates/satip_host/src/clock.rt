//! The session clock.

ghost use Rattle.std.specs.Prelude.{◌≡◌, ◌+◌, min, false};

use satip_world::Clock;
use std::marker::Model;
use std::time;
use std::time::{Instant, SystemTime, UNIX_EPOCH};

/// The start of a server's clocks: Unix time in milliseconds, and the reading of a monotonic clock
/// at that moment.
#[derive(Clone, Copy)]
pub struct ClockStart {
    unix_ms: u64,
    since: Option<Instant>,
}

impl ClockStart {
    /// Reads both clocks of a system. Unix time is 0 if it can't be read.
    pub fn read(clocks: &impl time::Clock) -> ClockStart {
        ClockStart {
            unix_ms: read_unix(clocks).unwrap_or(0),
            since: Instant::now(clocks).ok(),
        }
    }

    // Returns the milliseconds since the start; `None` if the monotonic clock can't be read.
    fn elapsed_ms(&self, clocks: &impl time::Clock) -> Option<u64> {
        u64::try_from(self.since?.elapsed(clocks).ok()?.as_millis()).ok()
    }
}

// Returns the milliseconds of Unix time; `None` if the clock can't be read.
fn read_unix(clocks: &impl time::Clock) -> Option<u64> {
    let since = SystemTime::now(clocks)
        .ok()?
        .duration_since(UNIX_EPOCH)
        .ok()?;
    u64::try_from(since.as_millis()).ok()
}

// Returns the moment `elapsed` milliseconds after a start, at most 2^64 - 1.
fn moment(start: u64, elapsed: u64) -> u64
    ensures sum { result ≡ min 18446744073709551615 (start + elapsed) }
{
    start.saturating_add(elapsed)
}

/// Time in milliseconds that advances from a start by a monotonic clock. If that clock can't be
/// read, it shows its last reading again. The first reading is the start.
#[derive(Clone, Copy, Drop)]
pub struct SteadyTime {
    start: ClockStart,
    last: u64,
}

impl SteadyTime {
    /// Creates the time; it shows the start.
    pub fn new(start: ClockStart) -> SteadyTime
        ensures start { result.last ≡ start.unix_ms }
    {
        SteadyTime {
            start,
            last: start.unix_ms,
        }
    }

    /// Reads the monotonic clock, and returns the time.
    pub fn read(&mut self, clocks: &impl time::Clock) -> u64
        ensures last { result ≡ self.new.last }
        ensures start { self.new.start ≡ self.old.start }
    {
        if let Some(elapsed) = self.start.elapsed_ms(clocks) {
            self.last = moment(self.start.unix_ms, elapsed);
        }
        self.last
    }
}

/// A clock in milliseconds of Unix time that advances by the system's monotonic clock. No step of
/// the system's time moves it. If the monotonic clock can't be read, it shows its last reading
/// again, or the start if there is none.
#[derive(Drop)]
pub struct RealClock {
    rt: HostRuntime,
    time: SteadyTime,
}

impl Model for RealClock {
    ghost use Rattle.std.specs.Prelude.{false, []};
    ghost use Rattle.satip_world.specs.Dials.{Dial};

    ghost Value = { Dial };

    ghost view = { λ _. record { readings = []; told = false } };
}

impl RealClock {
    ghost use Rattle.satip_world.specs.Dials.{fresh_dial};

    /// Creates a clock that counts from now and has no reading yet.
    pub fn begin(rt: HostRuntime) -> RealClock
        ensures fresh { result ≡ fresh_dial false }
    {
        RealClock::new(rt, ClockStart::read(&rt))
    }

    /// Creates a clock that counts from this start and has no reading yet.
    pub fn new(rt: HostRuntime, start: ClockStart) -> RealClock
        ensures fresh { result ≡ fresh_dial false }
    {
        RealClock {
            rt,
            time: SteadyTime::new(start),
        }
    }
}

impl Clock for RealClock {
    ghost dial = { λ c. c };

    fn now(&mut self) -> u64 {
        self.time.read(&self.rt)
    }
}
