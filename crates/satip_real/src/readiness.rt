//! Waits until sockets are ready.

use libc::net as c;
use libc::types::pollfd;
use mio::event::Source;
use mio::{Events, Interest, Poll, Token};
use std::alloc::Global;
use std::io;
use std::os::fd::{AsRawFd, RawFd};
use std::time::Duration;

/// What is reported of one socket. An event is reported once (epoll(7), EPOLLET).
#[derive(Drop)]
pub(crate) struct Watch {
    poll: Poll,
    events: Events<Global>,
}

impl Watch {
    /// Creates a watch of no socket yet.
    pub(crate) fn open(rt: &HostRuntime) -> io::Result<Watch> {
        let events = Events::with_capacity(rt.alloc(), 1)?;
        Ok(Watch {
            poll: Poll::new(rt)?,
            events,
        })
    }

    /// Lets input be reported of a socket.
    pub(crate) fn add(&self, socket: &mut impl Source) -> io::Result<()> {
        let registry = self.poll.registry();
        registry.register(socket, Token(0), Interest::READABLE)
    }

    /// Lets one or the other be reported of a socket. What is there now is reported too.
    pub(crate) fn change(&self, socket: &mut impl Source, to: Interest) -> io::Result<()> {
        self.poll.registry().reregister(socket, Token(0), to)
    }

    /// Waits up to `wait_ms` milliseconds for a report; returns whether there was one. A signal ends
    /// the wait without one.
    pub(crate) fn wait(&mut self, wait_ms: u64) -> io::Result<bool> {
        let longest = Duration::from_millis(wait_ms);
        self.poll.poll(&mut self.events, Some(longest))?;
        Ok(!self.events.is_empty())
    }
}

fn asked(fd: RawFd, events: i16) -> pollfd {
    pollfd {
        fd,
        events,
        revents: 0,
    }
}

/// Waits for `wait_ms` milliseconds, or until a signal cuts the wait short.
pub(crate) fn pause(wait_ms: i32) {
    c::poll(&mut [], wait_ms);
}

/// Waits up to `wait_ms` milliseconds until one of two sockets has input or a fault; returns which
/// of them have.
pub(crate) fn have_input(
    first: &impl AsRawFd,
    second: &impl AsRawFd,
    wait_ms: i32,
) -> (bool, bool) {
    let mut both = [
        asked(first.as_raw_fd(), c::POLLIN),
        asked(second.as_raw_fd(), c::POLLIN),
    ];
    if c::poll(&mut both, wait_ms) <= 0 {
        return (false, false);
    }
    let [first, second] = both;
    (first.revents != 0, second.revents != 0)
}
