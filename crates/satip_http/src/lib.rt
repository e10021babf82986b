//! Reads HTTP requests out of messages and writes the heads of responses (RFC 9110, RFC 9112).
//! Contract: each message gives exactly one request or one refusal; each writer appends exactly one
//! head.
#![tactic(auto)]

mod heads;
mod requests;

pub use heads::{write_refusal, write_start};
pub use requests::{HttpRefusal, HttpRequest};
