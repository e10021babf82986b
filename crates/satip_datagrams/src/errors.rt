//! The errors of calls on sockets, by what follows from them.

use std::{fmt, io};

// Errors that the crate `libc` doesn't name (errno(3)).
const ENOBUFS: i32 = 105;

const ENONET: i32 = 64;

const EPROTO: i32 = 71;

const EMSGSIZE: i32 = 90;

const ENOPROTOOPT: i32 = 92;

const EOPNOTSUPP: i32 = 95;

const ENETDOWN: i32 = 100;

const ENETUNREACH: i32 = 101;

const EHOSTDOWN: i32 = 112;

const EHOSTUNREACH: i32 = 113;

/// Returns whether a call on a connection is to be made again later. It would have waited, a signal
/// cut it short, or the system had no memory for it (recv(2), send(2)).
pub fn is_passing(error: &io::Error) -> bool {
    if error.kind() == io::ErrorKind::WouldBlock {
        return true;
    }
    matches!(
        error.raw_os_error(),
        Some(libc::EAGAIN | libc::EINTR | libc::ENOMEM | ENOBUFS)
    )
}

/// Returns whether a receive of a datagram is to be made again later. There was none, a signal cut
/// it short, the system had no memory for it, or the network reported an error of a datagram sent
/// before. See recv(2) and udp(7); the errors of the network are those of accept(2) and
/// ECONNREFUSED.
pub(crate) fn comes_later(error: &io::Error) -> bool {
    is_passing(error) || is_of_the_network(error)
}

fn is_of_the_network(error: &io::Error) -> bool {
    matches!(
        error.raw_os_error(),
        Some(
            libc::ECONNREFUSED
                | ENETDOWN
                | ENETUNREACH
                | EHOSTDOWN
                | EHOSTUNREACH
                | ENONET
                | EPROTO
                | EMSGSIZE
                | ENOPROTOOPT
                | EOPNOTSUPP
        )
    )
}

/// Returns whether a port can't be bound since it is in use or allowed to others only (bind(2)).
pub(crate) fn is_taken(error: &io::Error) -> bool {
    matches!(error.raw_os_error(), Some(libc::EADDRINUSE | libc::EACCES))
}

/// Why the system refused a datagram (send(2), udp(7)).
#[derive(Clone, Copy, Debug, PartialEq, Eq)]
pub(crate) enum Refusal {
    /// Its host answered that no program listens at the port.
    Unheard,
    /// No route leads to its host.
    NoRoute,
    /// A rule of the network's filter refuses it.
    NotPermitted,
    /// A send buffer or the system had no room for it.
    NoRoom,
    /// Another reason.
    Other,
}

impl fmt::Display for Refusal {
    fn fmt<W: fmt::Write>(&self, f: &mut fmt::Formatter<W>) -> fmt::Result {
        f.write_str(match self {
            Refusal::Unheard => "unheard",
            Refusal::NoRoute => "no route",
            Refusal::NotPermitted => "not permitted",
            Refusal::NoRoom => "no room",
            Refusal::Other => "other",
        })
    }
}

/// Returns why a datagram was refused.
pub(crate) fn refusal_of(error: &io::Error) -> Refusal {
    match error.raw_os_error() {
        Some(libc::ECONNREFUSED) => Refusal::Unheard,
        Some(ENETDOWN | ENETUNREACH | EHOSTDOWN | EHOSTUNREACH | ENONET) => Refusal::NoRoute,
        Some(libc::EPERM | libc::EACCES) => Refusal::NotPermitted,
        Some(libc::EAGAIN | libc::ENOMEM | ENOBUFS) => Refusal::NoRoom,
        _ => Refusal::Other,
    }
}
