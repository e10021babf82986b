//! Finds the sessions that get a packet, and keeps the packets that wait for each of them.
//! Contract: a packet reaches exactly the playing sessions of its front end that select it; for
//! each session the crate keeps the packets that it was given and not yet sent.
#![tactic(auto)]

mod bits;
mod flow;
mod other_subscribers;
mod place;
mod places;
mod sink;
mod slot_masks;
mod subscriber;

pub use flow::Flow;
pub use other_subscribers::each_call_keeps_rest;
pub use place::{Place, SenderState};
