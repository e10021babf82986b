//! The pauses of a pump that has nothing to do.

use crate::pacer::PAUSE;
use satip_host::Arrivals;
use std::sync::{Arc, Wait};
use std::thread;
use std::time::Duration;

// The count of short pauses after an end of doors. If the server stops after it, it does so within
// them.
const SHORT: u32 = 10;

// The longest pause, in microseconds.
const LONGEST: u64 = 1_000_000;

/// Pauses until the next arrival, for up to a second. The events of a piece of input are made before
/// it counts, so one question after it is enough. After an end of doors ten pauses last 20 ms.
#[derive(Drop)]
pub(crate) struct Lull<R: Wait + Drop> {
    rt: R,
    arrivals: Arc<Arrivals>,
    // The pump's place at the arrivals.
    place: usize,
    // The counts of arrivals and of ends of doors at the last pause, and that of short pauses that are
    // left.
    seen: u64,
    ends: u64,
    short: u32,
}

impl<R: Wait + Drop> Lull<R> {
    /// Creates the pauses of a pump of a server to which nothing came.
    pub(crate) fn new(rt: R, arrivals: Arc<Arrivals>, place: usize) -> Lull<R> {
        Lull {
            rt,
            arrivals,
            place,
            seen: 0,
            ends: 0,
            short: 0,
        }
    }

    /// Waits for an arrival for up to `longest`. Returns whether something arrived since the last
    /// wait.
    pub(crate) fn wait(&mut self, longest: Duration) -> bool {
        self.arrivals.wait(&self.rt, self.place, longest);
        let count = self.arrivals.count();
        let came = count != self.seen;
        self.seen = count;
        came
    }

    /// Pauses.
    pub(crate) fn pause(&mut self, host: &HostRuntime) {
        let ends = self.arrivals.ends();
        if ends != self.ends {
            self.ends = ends;
            self.short = SHORT;
        }
        if self.short == 0 {
            self.wait(Duration::from_micros(LONGEST));
            return;
        }
        self.short -= 1;
        thread::sleep(host, Duration::from_micros(PAUSE));
    }
}
