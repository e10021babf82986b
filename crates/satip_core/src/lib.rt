//! Serves one event at a time, in one thread.
//! Contract: each event is a step of the plain server: its state, answer, reply and datagrams. A
//! refusal and its cause are the plain server's decision.
#![tactic(auto)]

mod deciding;
mod describing;
mod places;
mod refusals;
mod replies;
mod requests;
mod served;
mod server;

pub use deciding::{Accepted, decide, decide_get};
pub use places::{Party, session_named};
pub use refusals::{Refused, telling};
pub use satip_plain::{
    Answer, Beat, Closed, Event, GetAnswer, Pulled, Replied, Service, Setting, Work,
};
pub use server::Server;
