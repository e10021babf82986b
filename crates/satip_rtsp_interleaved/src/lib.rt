//! Reads RTSP messages with interleaved frames between them (RFC 2326, section 10.12).
//! Contract: the messages are those of the whole text, however it is cut, and a whole frame before
//! a message has no effect. A SETUP's channels and a reply that names them in place of ports are
//! their definitions.
//! Only tested: that memory for a parter and for a reply is given.
#![tactic(auto)]

mod part_laws;
mod parting;
mod passing;
mod replies;
mod requests;
#[rattlefmt::skip]
#[tactic(auto, unfolding(
    crate::specs::Channels::interleaved_by,
    crate::specs::Channels::channels_by,
    crate::specs::Channels::channels_text,
    crate::specs::Channels::is_channel_text,
    crate::specs::Channels::is_tcp_text,
    satip_base::specs::Numbers::number_of,
    satip_rtsp::specs::Blanks::text_trimmed,
    crate::specs::Turned::turned,
    crate::specs::Turned::told_ports,
    crate::specs::Turned::channel_line,
))]
mod channel_examples;
mod transports;

pub use channel_examples::{worked_replies, worked_transports};
pub use part_laws::{
    first_is_first, frames_count_nowhere, hands_out_first, has_reading, kept_by_more_bytes,
    one_reading, whole_parts_are_read,
};
pub use parting::Parter;
pub use replies::ChannelReply;
pub use requests::{read_request, request};
pub use transports::interleaved;
