//! Implements the desk over memory, for tests: texts by name, kits and a client's devices.
//! Contract: a new desk has nothing; `add` adds a text, `lay` unused kits for a number of
//! connections, `lend` a client's devices.
#![tactic(auto)]

mod desk;
mod moment;
mod runs;

pub use desk::{MemoryDesk, MemoryJobs};
pub use moment::MemoryMoment;
pub use runs::{Ran, desk_with, texts_of};
