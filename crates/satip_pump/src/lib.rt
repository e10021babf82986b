//! Runs pumps, which play recordings, and the ticker, which reads a clock, over any service.
//! Contract: a pump's entries are the packets of its recordings, the ticker's are ticks at its
//! clock's readings. The outlet was given their datagrams in order, but for those whose send
//! failed. Each source that a store lent is handed back, and one is out at a time. There is one
//! pause for 64 packets, for each answer that there is nothing to do, and for each tick.
#![tactic(auto)]

mod batch;
mod buffer;
mod ends;
mod events;
mod lot;
mod pump;
mod reading;
mod ticker;
mod works;

pub use batch::Batch;
pub use ends::JobEnd;
pub use pump::{play_recordings, run_pump};
pub use ticker::{run_ticker, submit_ticks};
