//! What a job's pauses need, and how long they last.

use satip_host::{Arrivals, Start, Starts};
use satip_playout::RealPacer;
use satip_world::Pacer;
use std::alloc::Global;
use std::process::Abort;
use std::sync::{Arc, Wait};
use std::time::Instant;

/// Returns the count of arrivals of a server to which nothing came.
pub(crate) fn no_arrivals(rt: &impl Abort, host: HostRuntime) -> Arc<Arrivals> {
    let arrivals = Arrivals::with_places(host.alloc(), 1).expect(rt, "out of memory");
    Arc::new(host.alloc(), arrivals).expect(rt, "out of memory")
}

/// Returns the start of a server's one job.
pub(crate) fn start(rt: &impl Abort, alloc: Global) -> Start {
    let starts = Arc::new(alloc, Starts::expect(1)).expect(rt, "out of memory");
    Start::counting(&starts).expect(rt, "out of memory")
}

/// Returns the milliseconds since a moment.
pub(crate) fn elapsed_ms(rt: &impl Abort, host: HostRuntime, begin: &Instant) -> u64 {
    let elapsed = begin.elapsed(&host).expect(rt, "clock");
    u64::try_from(elapsed.as_millis()).unwrap_or(0)
}

/// Returns the milliseconds that this number of pauses take.
pub(crate) fn time_pauses<R: Wait + Drop>(
    rt: &impl Abort,
    host: HostRuntime,
    pacer: &mut RealPacer<R>,
    count: u32,
) -> u64 {
    let begin = Instant::now(&host).expect(rt, "clock");
    for _ in 0..count {
        pacer.pause();
    }
    elapsed_ms(rt, host, &begin)
}
