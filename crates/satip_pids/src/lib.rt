//! Reads PID lists and keeps the PID sets that streams select (ISO 13818-1).
//! Contract: a set is all PIDs or at most 256 rising numbers; `set`, `add` and `remove` are their
//! definitions, and each fault has its cause.
#![tactic(auto)]

mod bits;
mod fault;
mod numbers;
mod pid_list;
mod pid_set;
mod texts;

pub use fault::PidFault;
pub use pid_list::PidList;
pub use pid_set::PidSet;
