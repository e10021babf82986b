//! Options of sockets. An option that the system refuses stays as it was; the socket works without
//! it.

ghost use Rattle.libc.specs.Net.{SockOption};

use libc::net as c;
use mio::net::UdpSocket;
use std::os::fd::{AsRawFd, RawFd};

/// Sets an option of a socket to a number, or leaves it as it was.
pub fn set_option(fd: RawFd, level: i32, name: i32, number: i32)
    requires option { SockOption level name }
{
    let mut value = [0u8; 16];
    value[..4].copy_from_slice(&number.to_ne_bytes());
    let _ = unsafe { c::setsockopt(fd, level, name, &value, 4) };
}

/// Asks for the largest send buffer that the system gives without privilege.
pub(crate) fn widen(socket: &UdpSocket) {
    set_option(socket.as_raw_fd(), c::SOL_SOCKET, c::SO_SNDBUF, i32::MAX);
}

/// Asks for the largest receive buffer that the system gives without privilege.
pub(crate) fn widen_input(socket: &UdpSocket) {
    set_option(socket.as_raw_fd(), c::SOL_SOCKET, c::SO_RCVBUF, i32::MAX);
}
