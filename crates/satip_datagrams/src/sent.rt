//! The counts of datagrams of each destination, for those who watch a server.

use crate::errors::Refusal;
use satip_base::Address;
use satip_host::Count;
use std::alloc::{AllocError, Global};

/// The limit of destinations that have counts.
pub(crate) const ROWS: usize = 128;

// How often the counts are read again since a row got another destination meanwhile.
const TRIES: u32 = 8;

// The key of a row without a destination.
const FREE: u64 = 0;

// The counts of one destination, or of those that lost their row.
#[derive(Drop)]
struct Row {
    // The address and the port as one number.
    key: Count,
    datagrams: Count,
    bytes: Count,
    unheard: Count,
    no_route: Count,
    not_permitted: Count,
    no_room: Count,
    other: Count,
}

fn key_of(to: Address) -> u64 {
    u64::from(to.ip) * 65536 + u64::from(to.port)
}

fn address_of(key: u64) -> Address {
    Address {
        ip: u32::try_from(key / 65536).unwrap_or(u32::MAX),
        port: u16::try_from(key % 65536).unwrap_or(u16::MAX),
    }
}

impl Row {
    fn new() -> Row {
        Row {
            key: Count::at(FREE),
            datagrams: Count::new(),
            bytes: Count::new(),
            unheard: Count::new(),
            no_route: Count::new(),
            not_permitted: Count::new(),
            no_room: Count::new(),
            other: Count::new(),
        }
    }

    fn refused(&self, cause: Refusal) -> &Count {
        match cause {
            Refusal::Unheard => &self.unheard,
            Refusal::NoRoute => &self.no_route,
            Refusal::NotPermitted => &self.not_permitted,
            Refusal::NoRoom => &self.no_room,
            Refusal::Other => &self.other,
        }
    }

    fn read(&self) -> Sent {
        Sent {
            to: address_of(self.key.get()),
            datagrams: self.datagrams.get(),
            bytes: self.bytes.get(),
            refused: Refused {
                unheard: self.unheard.get(),
                no_route: self.no_route.get(),
                not_permitted: self.not_permitted.get(),
                no_room: self.no_room.get(),
                other: self.other.get(),
            },
        }
    }

    fn add(&self, sent: &Sent) {
        self.datagrams.add(sent.datagrams);
        self.bytes.add(sent.bytes);
        self.unheard.add(sent.refused.unheard);
        self.no_route.add(sent.refused.no_route);
        self.not_permitted.add(sent.refused.not_permitted);
        self.no_room.add(sent.refused.no_room);
        self.other.add(sent.refused.other);
    }

    // Gives the row to a destination that was sent nothing yet.
    fn begin(&self, key: u64) {
        self.key.set(key);
        self.datagrams.set(0);
        self.bytes.set(0);
        self.unheard.set(0);
        self.no_route.set(0);
        self.not_permitted.set(0);
        self.no_room.set(0);
        self.other.set(0);
    }
}

/// The counts of refused datagrams by cause.
#[derive(Clone, Copy, Debug, PartialEq, Eq)]
pub struct Refused {
    /// No program listens at the port.
    pub unheard: u64,
    /// No route leads to the host.
    pub no_route: u64,
    /// A rule of the network's filter refuses them.
    pub not_permitted: u64,
    /// A send buffer or the system had no room.
    pub no_room: u64,
    /// Other reasons.
    pub other: u64,
}

/// The counts of datagrams of a destination, or of all.
#[derive(Clone, Copy, Debug, PartialEq, Eq)]
pub struct Sent {
    /// The destination.
    pub to: Address,
    /// The datagrams that the system took.
    pub datagrams: u64,
    /// Their bytes.
    pub bytes: u64,
    /// Those that it refused.
    pub refused: Refused,
}

/// The counts of the datagrams of each destination since the start, of 128 destinations at most.
/// The outlet that has the lock writes them, one at a time, and others read them.
#[derive(Drop)]
pub struct SentCounts {
    rows: Vec<Row>,
    // The sums of destinations that lost their row to another.
    gone: Row,
    // The count of steps of such changes: odd during one.
    changes: Count,
    pub(crate) lines: Count,
}

impl SentCounts {
    /// Creates the counts of a server that sent nothing yet.
    pub fn new(alloc: Global) -> Result<SentCounts, AllocError> {
        let mut rows = Vec::new(alloc);
        for _ in 0..ROWS {
            rows.push(Row::new())?;
        }
        Ok(SentCounts {
            rows,
            gone: Row::new(),
            changes: Count::new(),
            lines: Count::new(),
        })
    }

    /// Returns the count of lines on refused datagrams.
    pub fn lines(&self) -> u64 {
        self.lines.get()
    }

    /// Counts a datagram that the system took, in the row at a place.
    pub(crate) fn count(&self, place: usize, bytes: usize) {
        if let Some(row) = self.rows.get(place) {
            row.datagrams.add(1);
            row.bytes.add(bytes as u64);
        }
    }

    /// Counts a datagram that the system refused, in the row at a place.
    pub(crate) fn refuse(&self, place: usize, cause: Refusal) {
        if let Some(row) = self.rows.get(place) {
            row.refused(cause).add(1);
        }
    }

    /// Returns the place of a destination's row, if it has one.
    pub(crate) fn place_of(&self, to: Address) -> Option<usize> {
        let key = key_of(to);
        self.rows.iter().position(|row| row.key.get() == key)
    }

    /// Returns the place of a row without a destination, if there is one.
    pub(crate) fn free_place(&self) -> Option<usize> {
        self.rows.iter().position(|row| row.key.get() == FREE)
    }

    /// Gives the row at a place to a destination.
    pub(crate) fn begin(&self, place: usize, to: Address) {
        let Some(row) = self.rows.get(place) else {
            return;
        };
        self.changes.add(1);
        self.gone.add(&row.read());
        row.begin(key_of(to));
        self.changes.add(1);
    }

    /// Adds the counts of each destination to `found`; returns their sums with those of all that
    /// lost their row.
    pub fn read(&self, found: &mut Vec<Sent>) -> Result<Sent, AllocError> {
        for _ in 0..TRIES {
            let before = self.changes.get();
            let sums = self.read_once(found)?;
            if before % 2 == 0 && self.changes.get() == before {
                return Ok(sums);
            }
        }
        self.read_once(found)
    }

    fn read_once(&self, found: &mut Vec<Sent>) -> Result<Sent, AllocError> {
        found.clear();
        let sums = Row::new();
        sums.add(&self.gone.read());
        for row in &self.rows {
            let sent = row.read();
            sums.add(&sent);
            if row.key.get() != FREE {
                found.push(sent)?;
            }
        }
        Ok(sums.read())
    }
}
