//! Assigns front ends to streams; the streams of one multiplex share a front end.
//! Contract: `take` returns the front end of the definition, and none exactly if the tuning is
//! blocked.
#![tactic(auto)]

mod choice;
mod front_table;
mod fronts;

pub use choice::Place;
pub use front_table::{FrontRow, FrontState};
pub use fronts::Fronts;
