//! The counts of datagrams that the system refused.

use crate::errors::Refusal;
use satip_base::Address;
use satip_host::report_warning;
use std::alloc::Global;
use std::fmt;
use std::net::Ipv4Addr;

// The limit of destinations that have counts.
const MOST: usize = 128;

// All causes, in the order of their counts.
const CAUSES: [Refusal; 5] = [
    Refusal::Unheard,
    Refusal::NoRoute,
    Refusal::NotPermitted,
    Refusal::NoRoom,
    Refusal::Other,
];

// The counts of one destination by cause, and whether one rose since the last line.
#[derive(Clone, Copy)]
struct Tally {
    to: Address,
    counts: [u64; 5],
    is_new: bool,
}

impl Tally {
    fn add(&mut self, cause: Refusal) {
        self.is_new = true;
        for (count, each) in self.counts.iter_mut().zip(CAUSES) {
            if each == cause {
                *count = count.saturating_add(1);
            }
        }
    }
}

impl fmt::Display for Tally {
    fn fmt<W: fmt::Write>(&self, f: &mut fmt::Formatter<W>) -> fmt::Result {
        let (host, port) = (Ipv4Addr::from_bits(self.to.ip), self.to.port);
        write!(f, "{host}:{port}")?;
        for (count, cause) in self.counts.iter().zip(CAUSES) {
            if *count != 0 {
                write!(f, ", {cause} {count}")?;
            }
        }
        Ok(())
    }
}

/// The counts of refused datagrams since the start, of the last 128 destinations that had some.
#[derive(Drop)]
pub(crate) struct Tallies {
    rows: Vec<Tally>,
    has_news: bool,
}

impl Tallies {
    /// Creates the counts of a server that sent nothing yet.
    pub(crate) fn new(alloc: Global) -> Tallies {
        Tallies {
            rows: Vec::new(alloc),
            has_news: false,
        }
    }

    /// Counts a datagram that was refused.
    pub(crate) fn count(&mut self, to: Address, cause: Refusal) {
        self.has_news = true;
        for row in self.rows.iter_mut() {
            if row.to == to {
                row.add(cause);
                return;
            }
        }
        if self.rows.len() >= MOST {
            self.rows.remove(0);
        }
        let mut row = Tally {
            to,
            counts: [0; 5],
            is_new: true,
        };
        row.add(cause);
        let _ = self.rows.push(row);
    }

    /// Returns whether a count rose since they were last taken.
    pub(crate) fn has_news(&self) -> bool {
        self.has_news
    }

    /// Takes the counts of the destinations of which one rose since the last time.
    pub(crate) fn take_news(&mut self, rt: HostRuntime) -> Refusals {
        self.has_news = false;
        let mut rows = Vec::new(rt.alloc());
        for row in self.rows.iter_mut() {
            if row.is_new {
                row.is_new = false;
                let _ = rows.push(*row);
            }
        }
        Refusals { rt, rows }
    }
}

/// Counts that are to be reported.
#[derive(Drop)]
pub(crate) struct Refusals {
    rt: HostRuntime,
    rows: Vec<Tally>,
}

impl Refusals {
    /// Reports the counts in a line on standard error.
    pub(crate) fn report(&self) {
        report_warning(&self.rt, Shown(&self.rows));
    }
}

// The text of that line.
#[derive(Drop)]
struct Shown<'a>(&'a [Tally]);

impl fmt::Display for Shown<'_> {
    fn fmt<W: fmt::Write>(&self, f: &mut fmt::Formatter<W>) -> fmt::Result {
        f.write_str("datagrams refused since the start:")?;
        let mut mark = " ";
        for row in self.0 {
            write!(f, "{mark}{row}")?;
            mark = "; ";
        }
        f.write_str(" (unheard: the client has closed its port; no room: sysctl net.core.wmem_max)")
    }
}
