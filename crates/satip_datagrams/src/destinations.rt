//! A connected UDP socket for each destination.

use crate::addresses::socket_addr;
use crate::errors::{Refusal, refusal_of};
use crate::options::widen;
use crate::sent::{ROWS, SentCounts};
use crate::tallies::{Refusals, Tallies};
use mio::net::UdpSocket;
use satip_base::Address;
use satip_host::Throttle;
use std::io;
use std::sync::Arc;

// The limit of destinations that have a socket: RTP and RTCP of 64 sessions.
const SOCKETS: usize = 128;

// A destination with its socket, the time of its last datagram by the count of sends, and the place
// of its counts.
#[derive(Drop)]
struct Connected {
    to: Address,
    socket: UdpSocket,
    used: u64,
    row: usize,
}

/// The sockets of the most recent destinations. Each socket has a separate send buffer, so
/// datagrams that wait for one host take no room from others.
#[derive(Drop)]
pub(crate) struct Destinations {
    rt: HostRuntime,
    ip: u32,
    common: UdpSocket,
    connected: Vec<Connected>,
    // The place after that of the last destination found.
    next: usize,
    sends: u64,
    tallies: Tallies,
    reports: Throttle,
    // The counts for those who watch the server, if there is somebody.
    counts: Option<Arc<SentCounts>>,
}

// Opens a UDP socket at an address and any port, with the largest send buffer that the system
// gives.
fn open(rt: &HostRuntime, ip: u32) -> io::Result<UdpSocket> {
    let socket = UdpSocket::bind(rt, socket_addr(Address { ip, port: 0 }))?;
    widen(&socket);
    Ok(socket)
}

fn open_connected(rt: &HostRuntime, ip: u32, to: Address) -> io::Result<UdpSocket> {
    let socket = open(rt, ip)?;
    socket.connect(socket_addr(to))?;
    Ok(socket)
}

impl Destinations {
    /// Creates the sockets: no destination has one yet, and one is common to those that can't get
    /// one. Datagrams are counted in `counts`, if there are some.
    pub(crate) fn bind(
        rt: HostRuntime,
        ip: u32,
        counts: Option<Arc<SentCounts>>,
    ) -> io::Result<Destinations> {
        Ok(Destinations {
            rt,
            ip,
            common: open(&rt, ip)?,
            connected: Vec::with_capacity(rt.alloc(), SOCKETS)?,
            next: 0,
            sends: 0,
            tallies: Tallies::new(rt.alloc()),
            reports: Throttle::new(),
            counts,
        })
    }

    // Returns the place of a destination's counts. One without gets a row that no destination has,
    // or one that no destination with a socket has.
    fn row_of(&self, to: Address) -> usize {
        let Some(counts) = &self.counts else {
            return ROWS;
        };
        if let Some(place) = counts.place_of(to) {
            return place;
        }
        let place = match counts.free_place() {
            Some(place) => place,
            None => self.spare_row(),
        };
        counts.begin(place, to);
        place
    }

    // Returns the place of the first row that no destination with a socket has.
    fn spare_row(&self) -> usize {
        for place in 0..ROWS {
            if self.connected.iter().all(|entry| entry.row != place) {
                return place;
            }
        }
        ROWS
    }

    // Counts a datagram, if the system took it.
    fn count(&self, row: usize, sent: &io::Result<usize>) {
        if let (Some(counts), Ok(bytes)) = (&self.counts, sent) {
            counts.count(row, *bytes);
        }
    }

    // Counts a datagram that was refused.
    fn refuse(&mut self, to: Address, cause: Refusal) {
        self.tallies.count(to, cause);
        if let Some(counts) = &self.counts {
            counts.refuse(self.row_of(to), cause);
        }
    }

    // Returns the place of a destination, or the count of places if it has none. Those of an event
    // mostly come in the order of their places, so the search begins after the last one found.
    fn find(&self, to: Address) -> usize {
        let count = self.connected.len();
        let mut place = self.next;
        for _ in 0..count.saturating_add(1) {
            match self.connected.get(place) {
                Some(entry) if entry.to == to => return place,
                Some(_) => place = place.saturating_add(1),
                None => place = 0,
            }
        }
        count
    }

    // Adds a socket. Closes the least recently used one first if there is no room. Returns the place
    // of its counts.
    fn add(&mut self, to: Address, socket: UdpSocket) -> usize {
        if self.connected.len() >= SOCKETS {
            let oldest = self.connected.iter().map(|entry| entry.used).min();
            self.connected.retain(|entry| Some(entry.used) != oldest);
        }
        let row = self.row_of(to);
        let _ = self.connected.push(Connected {
            to,
            socket,
            used: self.sends,
            row,
        });
        row
    }

    // Sends a datagram once, from the destination's socket if it has one or can get one.
    fn try_send(&mut self, to: Address, bytes: &[u8]) -> io::Result<usize> {
        self.sends = self.sends.saturating_add(1);
        let used = self.sends;
        let place = self.find(to);
        if let Some(entry) = self.connected.get_mut(place) {
            self.next = place.saturating_add(1);
            entry.used = used;
            let (row, sent) = (entry.row, entry.socket.send(bytes));
            self.count(row, &sent);
            return sent;
        }
        let (row, sent) = match open_connected(&self.rt, self.ip, to) {
            Ok(socket) => {
                let sent = socket.send(bytes);
                (self.add(to, socket), sent)
            }
            Err(_) => (self.row_of(to), self.common.send_to(bytes, socket_addr(to))),
        };
        self.count(row, &sent);
        sent
    }

    /// Sends a datagram, whole or not at all. An error may be that of the last datagram to the same
    /// destination (udp(7)), so this one is tried once more. That no program listens at its port is
    /// such an error: it counts, whatever becomes of this datagram.
    pub(crate) fn send(&mut self, to: Address, bytes: &[u8]) -> bool {
        match self.try_send(to, bytes) {
            Ok(count) => return count == bytes.len(),
            Err(error) => match refusal_of(&error) {
                Refusal::NoRoom => {
                    self.refuse(to, Refusal::NoRoom);
                    return false;
                }
                Refusal::Unheard => self.refuse(to, Refusal::Unheard),
                _ => {}
            },
        }
        match self.try_send(to, bytes) {
            Ok(count) => count == bytes.len(),
            Err(error) => {
                self.give_up(to, refusal_of(&error));
                false
            }
        }
    }

    // Counts a datagram that was refused twice. If that isn't for want of room, its socket may be
    // broken: it is closed, and the next datagram gets a new one.
    fn give_up(&mut self, to: Address, cause: Refusal) {
        self.refuse(to, cause);
        if cause != Refusal::NoRoom {
            self.connected.retain(|entry| entry.to != to);
        }
    }

    /// Returns the counts of refused datagrams, if one rose since the last time and a line on them
    /// is due. A line is due at most once a minute.
    pub(crate) fn due(&mut self) -> Option<Refusals> {
        if !self.tallies.has_news() || !self.reports.is_due(&self.rt) {
            return None;
        }
        if let Some(counts) = &self.counts {
            counts.lines.add(1);
        }
        Some(self.tallies.take_news(self.rt))
    }
}
