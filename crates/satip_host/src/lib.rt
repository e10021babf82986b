//! Clocks, random bytes, counts, the count of arrivals, the file that asks a server to end, and
//! lines on standard error.
//! Contract: none on what is read or written.
//! Only tested: that no step of the wall clock moves the session clock, that keys differ, that an
//! arrival ends a wait for it, and when a server was asked to end.
#![tactic(auto)]

mod arrivals;
mod clock;
mod counting;
mod key;
mod report;
mod shown;
mod starts;
mod stop;
mod stopwatch;
#[cfg(test)]
mod tests;

pub use arrivals::Arrivals;
pub use clock::{ClockStart, RealClock, SteadyTime};
pub use counting::Count;
pub use key::read_key;
pub use report::{Throttle, UtcTime, report_line, report_notice, report_warning};
pub use shown::Shown;
pub use starts::{Start, Starts};
pub use stop::Stop;
pub use stopwatch::Stopwatch;
