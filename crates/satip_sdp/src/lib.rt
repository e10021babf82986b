//! Writes the session description that DESCRIBE returns (RFC 4566; SAT>IP 1.2.2, 3.5.7).
//! Contract: the description and its length are their definitions, byte for byte.
#![tactic(auto)]

mod lines;
mod sdp;

pub use lines::{head_text, stream_text};
pub use sdp::{sdp_length, write_sdp};
