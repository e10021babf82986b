//! Keeps sessions, streams, front ends and subscribers as one state of the server.
//! Contract: each method is a move of the plain server, and appends exactly the datagrams of that
//! move.
#![tactic(auto)]

mod asking;
mod changing;
mod ending;
mod looks;
mod making;
mod packets;
mod parts;
mod pulling;
mod retuning;
mod seats;
mod sending;
mod subscribing;
mod ticking;
mod views;

pub use asking::{ask_pids, changed_tuning, to_set};
pub use parts::Parts;
