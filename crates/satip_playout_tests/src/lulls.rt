//! Pauses of jobs for which nothing comes, and those of a ticker.

use crate::checks::check_within;
use crate::jobs::{elapsed_ms, no_arrivals, start, time_pauses};
use satip_host::Arrivals;
use satip_playout::{Progress, RealPacer};
use satip_world::Pacer;
use std::process::Abort;
use std::sync::{Arc, Wait};
use std::thread;
use std::thread::Threads;
use std::time::{Duration, Instant};

// Returns the pacer of a pump that plays nothing, and the arrivals that end its pauses.
fn idle_pump<R: Wait + Drop>(
    rt: &impl Abort,
    host: HostRuntime,
    waits: R,
) -> (RealPacer<R>, Arc<Arrivals>) {
    let arrivals = no_arrivals(rt, host);
    let ends = Arc::try_clone(&arrivals).expect(rt, "another owner");
    let progress = Arc::new(host.alloc(), Progress::new(false)).expect(rt, "out of memory");
    let start = start(rt, host.alloc());
    let pacer = RealPacer::following(host, waits, start, progress, ends, 0);
    (pacer, arrivals)
}

// Lets 50 ms pass, and counts a piece of input, or an end of doors.
fn arrive(host: HostRuntime, arrivals: &Arrivals, is_end: bool) {
    thread::sleep(&host, Duration::from_millis(50));
    match is_end {
        true => arrivals.add(),
        false => arrivals.add_piece(),
    }
}

// Asserts that an arrival ends a lull, and that this number of short pauses follow it.
fn check_lull<R: Wait + Threads + Abort + Copy + Drop + Send>(
    host: HostRuntime,
    rt: R,
    is_end: bool,
    short: u32,
) {
    let (mut pacer, arrivals) = idle_pump(&rt, host, rt);
    let begin = Instant::now(&host).expect(&rt, "clock");
    thread::join(&rt, || arrive(host, &arrivals, is_end), || pacer.pause());
    let lull_ms = elapsed_ms(&rt, host, &begin);
    check_within(&rt, "lull", lull_ms, 49, 950);
    let short_ms = time_pauses(&rt, host, &mut pacer, short);
    let short = short as u64;
    check_within(&rt, "short", short_ms, short * 19, short * 500);
    let long_ms = time_pauses(&rt, host, &mut pacer, 1);
    check_within(&rt, "long", long_ms, 900, 5_000);
}

#[test]
fn a_piece_of_input_ends_a_lull(rt: HostRuntime) {
    check_lull(rt, rt, false, 0);
}

#[test]
fn an_end_of_doors_ends_ten_lulls(rt: HostRuntime) {
    check_lull(rt, rt, true, 10);
}

// Returns the milliseconds of ten ticks that take 10 ms each, with a pause after each.
fn time_ticks(rt: &impl Abort, host: HostRuntime, pacer: &mut impl Pacer) -> u64 {
    pacer.pause();
    let begin = Instant::now(&host).expect(rt, "clock");
    for _ in 0..10 {
        thread::sleep(&host, Duration::from_millis(10));
        pacer.pause();
    }
    elapsed_ms(rt, host, &begin)
}

#[test]
fn a_tickers_pauses_end_20_milliseconds_apart(rt: HostRuntime) {
    let mut pacer: RealPacer<HostRuntime> = RealPacer::ticking(rt, start(&rt, rt.alloc()));
    let mut least_ms = u64::MAX;
    for _ in 0..20 {
        if least_ms <= 280 {
            break;
        }
        least_ms = least_ms.min(time_ticks(&rt, rt, &mut pacer));
    }
    check_within(&rt, "ten ticks", least_ms, 195, 280);
}
