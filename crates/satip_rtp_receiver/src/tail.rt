//! The newest datagram of a catcher.
use crate::packets::Packets;

/// The newest datagram's packets, and the number of datagrams missing right before it.
#[derive(Drop)]
pub(crate) struct Tail {
    pub(crate) skip: u32,
    pub(crate) packets: Packets,
}
