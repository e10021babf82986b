//! Writes an entry of a history as one line of a journal.
//! Contract: the line is the entry's definition, has under 800000 bytes, and takes no memory.
#![tactic(auto)]

mod fields;
mod line_examples;
mod lines;
mod records;
mod requests;
mod room;

pub use line_examples::worked_lines;
pub use lines::{write_entry, write_start};
pub use room::LineRoom;
