//! Runs the one-thread server as a service that keeps each entry of its history, for tests.
//! Contract: the history is legal; a call adds its entry, of caller 0, after a stop of caller 1
//! exactly if that is due.
#![tactic(auto)]

pub mod connections;
mod copies;
mod entries;
mod history;
pub mod setting;
mod solo;

pub use solo::Solo;
