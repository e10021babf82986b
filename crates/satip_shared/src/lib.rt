//! Shares the one-thread server among threads, by the turn cell; a caller of it is a service.
//! Contract: all calls of all callers are in one legal history of the plain server. A caller never
//! returns out of memory.
#![tactic(auto)]

mod caller;
mod crew;
mod feeding;
mod server;

pub use caller::Caller;
pub use satip_jobs::{Crew, ServeEnd};
pub use server::{SharedPass, SharedServer, make};
