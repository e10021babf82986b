//! IPv4 addresses and UDP ports, as numbers in host order.

/// The host at the other end of a connection.
#[derive(Clone, Copy, Debug, PartialEq, Eq)]
pub struct Peer {
    pub ip: u32,
}

/// The destination of a datagram.
#[derive(Clone, Copy, Debug, PartialEq, Eq)]
pub struct Address {
    pub ip: u32,
    pub port: u16,
}

/// The ports of a client's RTP and RTCP sockets (RFC 2326, 12.39: `client_port`).
#[derive(Clone, Copy, Debug, PartialEq, Eq)]
pub struct Ports {
    pub rtp: u16,
    pub rtcp: u16,
}
