//! The laws of the lanes, channels and pieces in every legal history of a tunnel.
//! Contract: the drains of a lane take its frames whole and in order, each by the caller that was
//! given the lane. The packets on a channel that one session alone was given are a prefix of that
//! session's payload. Bytes split into replies and frames in at most one way.
#![tactic(auto)]

#[rattlefmt::skip]
#[tactic(auto, unfolding(
    satip_rtp::specs::Bytes::rtp_header,
    satip_rtp::specs::Bytes::rtp_datagram,
    satip_fronts::specs::Choice::choose,
    satip_fronts::specs::Choice::blocked,
    satip_fronts::specs::Choice::least,
    satip_fronts::specs::Choice::placed,
    satip_fronts::specs::Choice::may_take,
))]
mod channel_examples;
mod channel_laws;
mod lane_examples;
mod lane_laws;
mod piece_examples;
mod piece_laws;
mod reply_examples;
mod reply_laws;

pub use channel_examples::worked_rows as worked_channels;
pub use channel_laws::channels_carry_payload;
pub use lane_examples::{worked_frames, worked_owners};
pub use lane_laws::{
    connections_drain_own, connections_take_first, frames_are_lanes, lanes_are_own,
};
pub use piece_examples::worked_rows as worked_pieces;
pub use piece_laws::{parts_law, replies_are_replies};
pub use reply_examples::worked_rows as worked_requests;
pub use reply_laws::histories_reply;
