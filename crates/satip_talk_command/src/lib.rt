//! Runs the command `talk`: one RTSP connection over standard streams (RFC 2326, section 10).
//! Contract: the output is the plain server's replies to the messages of the input, or a prefix of
//! them; each other end but out of memory has its cause.
#![tactic(auto)]

mod answering;
mod command;
mod conversation;
mod gathered;
mod talker;

pub use command::talk;
