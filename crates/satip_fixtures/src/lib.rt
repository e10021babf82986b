//! Gives tests a small configuration, a client, packets, draws, a recording client and texts.
//! Contract: a configuration has the number of front ends asked for, numbered from 1, and the
//! multiplexes given.
#![tactic(auto)]

mod clients;
mod configurations;
pub mod draws;
mod packets;
pub mod recordings;
pub mod texts;

pub use clients::{CLIENT, DRAW, PORTS};
pub use configurations::{FIRST_MUX, FIRST_TUNING, SECOND_MUX, config_with, front_end};
pub use packets::{packet, packet_bytes};
