//! A client, and the draw of its session.

use satip_base::{Draw, Peer, Ports};

/// The client's host, 192.168.1.20.
pub const CLIENT: Peer = Peer { ip: 0xc0a8_0114 };

/// The client's UDP ports.
pub const PORTS: Ports = Ports {
    rtp: 1400,
    rtcp: 1401,
};

/// The draw of the first session, 000000010000000a: its stream has the SSRC 11223344, and its first
/// datagram the sequence number 65535.
pub const DRAW: Draw = Draw {
    word: 10,
    ssrc: 0x1122_3344,
    first: 65535,
};
