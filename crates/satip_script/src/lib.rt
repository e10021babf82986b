//! Reads event scripts, one event a line, and prints the entries of their run.
//! Contract: each line is the event of its definition, skipped or wrong. The lines of an entry are
//! appended whole, or nothing is.
#![tactic(auto)]

mod front;
mod lines;
mod messages;
mod parts;
mod pieces;
mod printing;
mod script_laws;
mod scripts;
mod words;

pub use lines::{Line, read_line};
pub use messages::{read_get, read_request};
pub use parts::EventParts;
pub use printing::print_entry;
pub use script_laws::{one_line, one_run, one_script, run_grows};
pub use scripts::{Script, check_script};
