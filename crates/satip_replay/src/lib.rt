//! Runs commands over a configuration and an input, as `replay`: an event script on the one-thread
//! server.
//! Contract: the output is the printed run of the whole script by the configuration. It is a prefix
//! of that if the output failed or memory was refused. Each other end has its cause and writes
//! nothing.
#![tactic(auto)]

mod batches;
mod command;
mod replaying;
mod running;

pub use batches::Batch;
pub use command::{Batched, ReplayCommand, run_batch};
pub use replaying::replay;
