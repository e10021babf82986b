//! Packets that are filled with the byte 0x47.

use satip_ts::Packet;

/// The bytes of a packet of this PID.
pub(crate) fn filled_bytes(pid: u16) -> [u8; 188] {
    let [high, low] = pid.to_be_bytes();
    let mut bytes = [0x47; 188];
    bytes[1] = high % 32;
    bytes[2] = low;
    bytes
}

/// The packet of these bytes.
pub(crate) fn filled(pid: u16) -> Option<Packet> {
    Packet::of(&filled_bytes(pid))
}
