//! Reads the RTP datagrams of one stream and puts them in order (RFC 3550, RFC 2250).
//! Contract: `read_rtp` returns number, source and packets exactly if the datagram has them. The
//! items of a catcher are what is caught of all datagrams that it took.
#![tactic(auto)]

mod catch_laws;
mod catcher;
mod holding;
mod item;
mod packets;
mod rtp;
mod tail;
mod view;

pub use catch_laws::{
    always_catches_all, always_catches_in_order, always_catches_sent, worked_rows,
};
pub use catcher::Catcher;
pub use item::Item;
pub use packets::Packets;
pub use rtp::read_rtp;
pub use view::RtpView;
