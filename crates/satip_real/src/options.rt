//! Options of sockets. An option that the system refuses stays as it was; the socket works without
//! it.

use libc::net as c;
use mio::net::TcpStream;
use satip_datagrams::set_option;
use std::os::fd::AsRawFd;

// A peer that was silent for 15 s is probed each 5 s, three times.
const KEEPALIVE_IDLE_S: i32 = 15;

const KEEPALIVE_INTERVAL_S: i32 = 5;

const KEEPALIVE_PROBES: i32 = 3;

// The longest time for which sent bytes may stay without an acknowledgement, in milliseconds.
const USER_TIMEOUT_MS: i32 = 30000;

/// Makes replies leave at once, and the connection fail 30 s after its peer vanished (tcp(7)).
pub(crate) fn prepare(stream: &TcpStream) {
    let fd = stream.as_raw_fd();
    set_option(fd, c::IPPROTO_TCP, c::TCP_NODELAY, 1);
    set_option(fd, c::SOL_SOCKET, c::SO_KEEPALIVE, 1);
    set_option(fd, c::IPPROTO_TCP, c::TCP_KEEPIDLE, KEEPALIVE_IDLE_S);
    set_option(fd, c::IPPROTO_TCP, c::TCP_KEEPINTVL, KEEPALIVE_INTERVAL_S);
    set_option(fd, c::IPPROTO_TCP, c::TCP_KEEPCNT, KEEPALIVE_PROBES);
    set_option(fd, c::IPPROTO_TCP, c::TCP_USER_TIMEOUT, USER_TIMEOUT_MS);
}
