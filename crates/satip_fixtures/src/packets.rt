//! Packets without content.

use satip_ts::Packet;
use std::test::Fail;

/// Returns the bytes of a packet of this PID: all bytes after its PID are 0.
pub fn packet_bytes(pid: u8) -> [u8; 188] {
    let mut bytes = [0; 188];
    bytes[0] = 0x47;
    bytes[2] = pid;
    bytes
}

/// Returns a packet of this PID.
pub fn packet(pid: u8) -> Result<Packet, Fail> {
    Ok(Packet::of(&packet_bytes(pid)).ok_or("packet")?)
}
