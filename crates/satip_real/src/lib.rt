//! Implements connections and doors over TCP sockets, and counts them.
//! Contract: each adapter begins with counts of 0 and meets its trait. Doors give no connection
//! beyond their limit.
//! Only tested: which bytes the sockets give and take, and how long they wait.
#![tactic(auto)]

mod connection;
mod dialing;
mod doors;
mod errors;
mod listeners;
mod options;
mod readiness;
mod sending;
mod silence;
mod socket;
mod visits;

pub use connection::RealConn;
pub use doors::RealDoors;
pub use listeners::{BindFault, Carried, Listeners};
pub use sending::{Unhurried, send_all};
pub use visits::{Obstacles, OpenVisit, Visits};
