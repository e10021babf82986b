//! Conversions between addresses as numbers and the system's addresses.

use satip_base::{Address, Peer};
use std::net::{Ipv4Addr, SocketAddr, SocketAddrV4};

/// Converts an IPv4 address and a port to the system's type for any kind of address.
pub fn socket_addr(address: Address) -> SocketAddr {
    let ip = Ipv4Addr::from_bits(address.ip);
    SocketAddr::V4(SocketAddrV4::new(ip, address.port))
}

/// Returns the host at the other end; `None` if it has no IPv4 address.
pub fn peer_of(addr: SocketAddr) -> Option<Peer> {
    match addr {
        SocketAddr::V4(addr) => Some(Peer {
            ip: addr.ip().to_bits(),
        }),
        SocketAddr::V6(_) => None,
    }
}
