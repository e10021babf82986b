//! The items that a catcher hands up.
use crate::packets::Packets;

/// The packets of one datagram with its sequence number, or `count` numbers from `from` on whose
/// datagrams didn't arrive in time.
#[derive(Drop)]
pub enum Item {
    Data { number: u16, packets: Packets },
    Gap { from: u16, count: u32 },
}
