//! Reads RTSP requests out of messages and writes the replies (RFC 2326).
//! Contract: each message gives exactly one request or one refusal; each writer appends exactly one
//! text.
#![tactic(auto)]

mod heard_examples;
mod methods;
mod replies;
mod requests;
mod short;
mod targets;
mod texts;
mod transports;

pub use heard_examples::worked_hearings;
pub use replies::{
    write_closing, write_describe, write_options, write_plain, write_play, write_setup, write_text,
    write_unsupported,
};
pub use requests::{Method, Refusal, Request, SessionName};
pub use satip_base::Ports;
pub use short::Short;
pub use texts::{text_of, trimmed};
