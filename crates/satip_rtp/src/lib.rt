//! Packs transport packets into RTP datagrams (RFC 3550, RFC 2250).
//! Contract: over every list of pushes and flushes, the datagrams are the cut of the packets that
//! were pushed.
#![tactic(auto)]

mod cut_laws;
mod packer;

pub use cut_laws::{all_calls_cut, cut_loses_nothing, each_call_cuts};
pub use packer::Packer;
