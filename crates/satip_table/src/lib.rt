//! Keeps sessions by slot and streams by number, each list in its order.
//! Contract: each call is its plain function of the two lists. If the owner of a stream ends, the
//! earliest joined session becomes its owner.
#![tactic(auto)]

mod order;
mod seats;
mod session;
mod stream;
mod streams;
mod table;

pub use session::{NewSession, Seat, Session};
pub use stream::Stream;
pub use table::Table;
