//! Keeps the deadlines of sessions: a map from keys below 64 to moments.
//! Contract: `due` returns the key of the least deadline that has passed, of equal ones the lesser
//! key.
#![tactic(auto)]

mod heap;
mod timer;

pub use timer::{KEYS, Timer};
