//! Implements all devices over memory, for tests; a device fails when the test says so.
//! Contract: each device begins with counts of 0 and meets its trait; sources, sinks, connections,
//! outlets and inlets expose their content.
#![tactic(auto)]

mod clock;
mod conn;
mod doors;
mod failures;
mod inlet;
mod outlet;
mod store;
mod streams;

pub use clock::{MemoryClock, MemoryPacer};
pub use conn::MemoryConn;
pub use doors::{Handed, MemoryDoors};
pub use inlet::MemoryInlet;
pub use outlet::MemoryOutlet;
pub use store::{MemoryRecording, MemoryStore};
pub use streams::{MemorySink, MemorySource};
