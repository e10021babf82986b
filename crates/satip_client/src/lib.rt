//! Sets up one stream of a server, plays it and keeps its session alive (SAT>IP 1.2.2, 3.5).
//! Contract: over any connection each request is its definition and was sent whole, and its reply
//! is accepted. Each other end but out of memory has its cause. OPTIONS is sent exactly when half
//! of the timeout is over (RFC 2326, section 10).
#![tactic(auto)]

mod asking;
mod draft;
mod ending;
mod fields;
mod grants;
mod heads;
mod heard;
mod lease;
mod opening;
mod page;
mod pulse;
mod reply;
mod reply_examples;
mod request_examples;
mod requests;

pub use ending::RecordEnd;
pub use grants::{Grant, ReplyFault, accept, grant_of};
pub use heard::Heard;
pub use lease::Lease;
pub use opening::{set_up, start};
pub use page::Page;
pub use pulse::{Pulse, keep_alive};
pub use reply::{ReplyRead, ReplyView, read_reply};
pub use reply_examples::worked_rows as worked_replies;
pub use request_examples::worked_rows as worked_requests;
pub use satip_rtp_receiver::{Catcher, Item, read_rtp};
