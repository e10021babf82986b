//! Declares the devices as traits: connections, outlets, inlets, recordings, clocks and doors.
//! Contract: a call fails only if its device's count of faults rose. A device that exposes its
//! content grows by exactly what the call says. A store counts the sources that it lent.
#![tactic(auto)]

mod clocks;
mod connections;
mod doors;
mod inlets;
mod outlets;
mod stores;

pub use clocks::{Clock, Pacer};
pub use connections::{Conn, Received};
pub use doors::{ConnEnd, Door, DoorKind, Doors};
pub use inlets::Inlet;
pub use outlets::{Outlet, post_all};
pub use stores::MuxStore;
