//! The clocks of the system, and its random bytes.

use crate::checks::{check, check_within};
use satip_host::{ClockStart, RealClock, SteadyTime, read_key};
use satip_world::Clock;
use std::io::ErrorKind;
use std::time::Duration;
use std::{io, thread, time};

#[test]
fn keys_differ(rt: HostRuntime) {
    let one = read_key(&rt).expect(&rt, "key");
    let other = read_key(&rt).expect(&rt, "key");
    check(&rt, "keys are the same", one == other, false);
}

// What the clocks of a system show; the monotonic one can't be read where it is `None`.
#[derive(Drop)]
struct SystemClocks {
    unix_s: u64,
    monotonic_ms: Option<u64>,
}

impl time::Clock for SystemClocks {
    fn monotonic(&self) -> io::Result<Duration> {
        match self.monotonic_ms {
            Some(millis) => Ok(Duration::from_millis(millis)),
            None => Err(io::Error::from(ErrorKind::Other)),
        }
    }

    fn since_1970(&self) -> io::Result<Duration> {
        Ok(Duration::from_secs(self.unix_s))
    }
}

// What the wall clock does, what both clocks of the system show then, and the milliseconds that
// passed since the start.
const STEPS: &[(&str, u64, Option<u64>, u64)] = &[
    ("goes on", 1_800_000_001, Some(6_250), 1_250),
    ("is a day ahead", 1_800_086_402, Some(7_000), 2_000),
    ("is set right", 1_800_000_003, Some(8_000), 3_000),
    ("goes a year back", 1_768_464_004, Some(9_000), 4_000),
    ("is alone", 1_900_000_000, None, 4_000),
    ("goes to 1970", 0, Some(65_000), 60_000),
];

#[test]
fn no_step_of_the_wall_clock_moves_the_session_clock(rt: HostRuntime) {
    let start = ClockStart::read(&SystemClocks {
        unix_s: 1_800_000_000,
        monotonic_ms: Some(5_000),
    });
    let mut time = SteadyTime::new(start);
    for (name, unix_s, monotonic_ms, passed_ms) in STEPS {
        let shown = time.read(&SystemClocks {
            unix_s: *unix_s,
            monotonic_ms: *monotonic_ms,
        });
        let passed = shown.checked_sub(1_800_000_000_000);
        check(&rt, name, passed, Some(*passed_ms));
    }
}

// Returns what a clock shows before and after a pause of 20 ms.
fn read_around_a_pause(rt: HostRuntime, clock: &mut RealClock) -> (u64, u64) {
    let before = clock.now();
    thread::sleep(&rt, Duration::from_millis(20));
    (before, clock.now())
}

#[test]
fn the_session_clock_goes_on(rt: HostRuntime) {
    let start = ClockStart::read(&rt);
    let (before, after) = read_around_a_pause(rt, &mut RealClock::new(rt, start));
    let (later, _) = read_around_a_pause(rt, &mut RealClock::new(rt, start));
    for (name, shown, least, most) in [
        ("first", before, 1_700_000_000_001, u64::MAX),
        ("after a pause", after, before.saturating_add(19), u64::MAX),
        ("by another", later, after, after.saturating_add(5_000)),
    ] {
        check_within(&rt, name, shown, least, most);
    }
}

#[test]
fn a_clock_that_begins_never_falls(rt: HostRuntime) {
    let mut clock = RealClock::begin(rt);
    let mut last = clock.now();
    for _ in 0..1000 {
        let shown = clock.now();
        check_within(&rt, "shown", shown, last, u64::MAX);
        last = shown;
    }
}
