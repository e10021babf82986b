//! Runs the command `stress`: events that a generator makes of a seed, on the one-thread server.
//! Contract: the output is the six counts of the run of the seed's events, or a prefix of them; out
//! of memory ends it without output.
//! Only tested: that the texts of the requests ask for what the definition says.
#![tactic(auto)]

mod clients;
mod command;
mod counted;
mod counting;
mod kept;
mod making;
mod running;
mod stressing;

pub use command::stress_by;
pub use stressing::{MOST_EVENTS, stress};
