//! Records one stream: writes its packets in order and a line for each gap (RFC 3550, 5.1).
//! Contract: with `Done` the requests were SETUP, PLAY, OPTIONS when due and TEARDOWN, and the
//! output is the first packets caught of the datagrams that came in. Each other end has a prefix of
//! that output and, but for out of memory, its cause.
#![tactic(auto)]

mod command;
mod opening;
mod outcome;
mod recorder;
mod recording_run;
mod tape;
mod turns;
mod wish;
mod words;

pub use command::{Recorded as RecordRan, record};
pub use recording_run::{Recorded, record_by};
pub use wish::Wish;
pub use words::Recording;
