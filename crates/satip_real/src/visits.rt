//! The counts of a worker's connections, for those who watch a server.

use satip_base::Peer;
use satip_host::Count;
use satip_world::DoorKind;
use std::time::Clock;

// How often the open connection is read again since another one came meanwhile.
const TRIES: u32 = 8;

// The number of a kind of connection, and that of none.
const NONE: u64 = 0;

const RTSP: u64 = 1;

const HTTP: u64 = 2;

/// Why a connection can't be served.
#[derive(Clone, Copy)]
pub(crate) enum Obstacle {
    /// No descriptor is available for it.
    Descriptors,
    /// The system can't report what happens to it.
    Watch,
    /// Accepting it failed for another reason.
    Other,
}

/// The counts of refused connections by cause.
#[derive(Clone, Copy, Debug, Default, PartialEq, Eq)]
pub struct Obstacles {
    /// For want of a descriptor; the client waits on.
    pub descriptors: u64,
    /// For want of an epoll.
    pub watch: u64,
    /// For other reasons.
    pub other: u64,
}

impl Obstacles {
    /// Returns the sums with other counts.
    pub fn with(&self, more: &Obstacles) -> Obstacles {
        Obstacles {
            descriptors: self.descriptors.saturating_add(more.descriptors),
            watch: self.watch.saturating_add(more.watch),
            other: self.other.saturating_add(more.other),
        }
    }
}

/// A connection that is open, with the bytes that it was sent and that it sent.
#[derive(Clone, Copy, Debug, PartialEq, Eq)]
pub struct OpenVisit {
    /// The listener from which it came.
    pub kind: DoorKind,
    /// The client's host.
    pub peer: Peer,
    /// The client's port.
    pub port: u16,
    /// The moment at which it was accepted, in milliseconds of the monotonic clock.
    pub since_ms: u64,
    /// The bytes sent to the client.
    pub sent: u64,
    /// The bytes received from it.
    pub received: u64,
}

/// The counts of the connections of one worker since the start, and the one that is open. The
/// worker's thread writes them, others read them.
#[derive(Drop)]
pub struct Visits {
    taken: Count,
    descriptors: Count,
    watch: Count,
    other: Count,
    sent: Count,
    received: Count,
    // The connection that is open, and the counts of bytes when it came.
    kind: Count,
    ip: Count,
    port: Count,
    since_ms: Count,
    sent_before: Count,
    received_before: Count,
}

// Returns the milliseconds of the monotonic clock; 0 if it can't be read.
fn now_ms(rt: &HostRuntime) -> u64 {
    match rt.monotonic() {
        Ok(moment) => u64::try_from(moment.as_millis()).unwrap_or(0),
        Err(_) => 0,
    }
}

impl Visits {
    /// Creates the counts of a worker that served no connection yet.
    pub fn new() -> Visits {
        Visits {
            taken: Count::new(),
            descriptors: Count::new(),
            watch: Count::new(),
            other: Count::new(),
            sent: Count::new(),
            received: Count::new(),
            kind: Count::at(NONE),
            ip: Count::new(),
            port: Count::new(),
            since_ms: Count::new(),
            sent_before: Count::new(),
            received_before: Count::new(),
        }
    }

    /// Counts a connection that is served from now on.
    pub(crate) fn begin(&self, rt: &HostRuntime, kind: DoorKind, peer: Peer, port: u16) {
        // comes first: a reader that sees a new number below sees a new count too
        self.taken.add(1);
        self.ip.set(u64::from(peer.ip));
        self.port.set(u64::from(port));
        self.since_ms.set(now_ms(rt));
        self.sent_before.set(self.sent.get());
        self.received_before.set(self.received.get());
        self.kind.set(match kind {
            DoorKind::Rtsp => RTSP,
            DoorKind::Http => HTTP,
        });
    }

    /// Notes that the open connection has ended.
    pub(crate) fn end(&self) {
        self.kind.set(NONE);
    }

    /// Counts bytes that were sent.
    pub(crate) fn send(&self, count: usize) {
        self.sent.add(count as u64);
    }

    /// Counts bytes that were received.
    pub(crate) fn receive(&self, count: usize) {
        self.received.add(count as u64);
    }

    /// Counts a connection that can't be served.
    pub(crate) fn refuse(&self, obstacle: Obstacle) {
        match obstacle {
            Obstacle::Descriptors => self.descriptors.add(1),
            Obstacle::Watch => self.watch.add(1),
            Obstacle::Other => self.other.add(1),
        }
    }

    /// Returns the count of connections that were served.
    pub fn taken(&self) -> u64 {
        self.taken.get()
    }

    /// Returns the counts of connections that couldn't be served.
    pub fn refused(&self) -> Obstacles {
        Obstacles {
            descriptors: self.descriptors.get(),
            watch: self.watch.get(),
            other: self.other.get(),
        }
    }

    /// Returns the count of bytes that were sent.
    pub fn sent(&self) -> u64 {
        self.sent.get()
    }

    /// Returns the count of bytes that were received.
    pub fn received(&self) -> u64 {
        self.received.get()
    }

    /// Returns the open connection, if there is one.
    pub fn open(&self) -> Option<OpenVisit> {
        let mut taken = self.taken.get();
        for _ in 0..TRIES {
            let open = self.read_open();
            let now = self.taken.get();
            if now == taken {
                return open;
            }
            taken = now;
        }
        None
    }

    fn read_open(&self) -> Option<OpenVisit> {
        let kind = match self.kind.get() {
            RTSP => DoorKind::Rtsp,
            HTTP => DoorKind::Http,
            _ => return None,
        };
        let (sent, received) = (self.sent.get(), self.received.get());
        Some(OpenVisit {
            kind,
            peer: Peer {
                ip: u32::try_from(self.ip.get()).ok()?,
            },
            port: u16::try_from(self.port.get()).ok()?,
            since_ms: self.since_ms.get(),
            sent: sent.saturating_sub(self.sent_before.get()),
            received: received.saturating_sub(self.received_before.get()),
        })
    }
}
