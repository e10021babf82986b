//! Implements outlets and inlets over UDP sockets, and counts what is sent.
//! Contract: each adapter begins with counts of 0 and meets its trait. An inlet has an even port.
//! Only tested: which bytes the sockets give and take; that outlets of one socket exclude each
//! other.
#![tactic(auto)]

mod addresses;
mod destinations;
mod errors;
mod inlet;
mod options;
mod outlet;
mod readiness;
mod sent;
mod tallies;

pub use addresses::{peer_of, socket_addr};
pub use errors::is_passing;
pub use inlet::RealInlet;
pub use options::set_option;
pub use outlet::{RealOutlet, SharedSocket};
pub use sent::{Refused, Sent, SentCounts};
