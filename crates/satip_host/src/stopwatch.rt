//! The time since a moment.

use std::time::{Duration, Instant};

/// Counts the time since its start, by a clock that no step of the system's time changes. If that
/// clock can't be read, the time is 0.
#[derive(Drop)]
pub struct Stopwatch {
    rt: HostRuntime,
    begun: Option<Instant>,
}

impl Stopwatch {
    /// Starts to count.
    pub fn start(rt: HostRuntime) -> Stopwatch {
        Stopwatch {
            rt,
            begun: Instant::now(&rt).ok(),
        }
    }

    /// Starts to count from 0 again.
    pub fn restart(&mut self) {
        self.begun = Instant::now(&self.rt).ok();
    }

    /// Returns the milliseconds since the start.
    pub fn elapsed_ms(&self) -> u64 {
        match self.begun {
            Some(begun) => u64::try_from(self.since(begun).as_millis()).unwrap_or(u64::MAX),
            None => 0,
        }
    }

    fn since(&self, begun: Instant) -> Duration {
        begun.elapsed(&self.rt).unwrap_or(Duration::ZERO)
    }
}
