//! Waits for datagrams.

use libc::net as c;
use libc::types::pollfd;
use std::os::fd::AsRawFd;

/// Waits up to `wait_ms` milliseconds until a socket has input or a fault; returns whether it has.
/// A wait that a signal cut short returns false.
pub(crate) fn has_input(socket: &impl AsRawFd, wait_ms: i32) -> bool {
    let asked = pollfd {
        fd: socket.as_raw_fd(),
        events: c::POLLIN,
        revents: 0,
    };
    c::poll(&mut [asked], wait_ms) > 0
}
