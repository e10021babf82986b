//! The two listeners of the server.

use crate::errors::ends_listening;
use crate::readiness::have_input;
use libc::net as c;
use mio::net::{TcpListener, TcpStream};
use satip_base::{Address, Peer};
use satip_datagrams::{peer_of, socket_addr};
use satip_host::{Arrivals, Count, Stop, Throttle};
use satip_world::DoorKind;
use std::io;
use std::net::Net;
use std::os::fd::AsRawFd;
use std::sync::Arc;
use std::sync::atomic::{AtomicBool, Ordering};

// The longest waits of a server that may be asked to end, in milliseconds: for a connection, and for
// bytes of one.
const LOOK_MS: i32 = 1000;

const STOP_WAIT_MS: u64 = 250;

/// The listeners for RTSP and for HTTP, which all doors of the server share.
#[derive(Drop)]
pub struct Listeners {
    rtsp: TcpListener,
    http: TcpListener,
    pub(crate) shortages: Throttle,
    // The count of lines on workers whose listener failed.
    pub(crate) failures: Count,
    pub(crate) arrivals: Arc<Arrivals>,
    pub(crate) carried: Carried,
    // Whether a client that ended no message was given up, and others waited since then.
    crowded: AtomicBool,
    // What asks the server to end, if there is something, and whether both are closed since.
    stop: Option<Stop>,
    closed: AtomicBool,
}

/// What goes to clients on RTSP connections.
#[derive(Clone, Copy, PartialEq, Eq)]
pub enum Carried {
    /// Replies alone.
    Replies,
    /// Replies, and frames that wait in a lane.
    Frames,
}

/// Why there are no listeners: an address that isn't the host's, or a port that is in use or
/// allowed to others only.
#[derive(Debug, Drop)]
pub enum BindFault {
    /// The listener for RTSP can't be bound.
    Rtsp(io::Error),
    /// The listener for HTTP can't be bound.
    Http(io::Error),
}

/// An accepted connection.
#[derive(Drop)]
pub(crate) struct Visitor {
    pub(crate) kind: DoorKind,
    pub(crate) peer: Peer,
    pub(crate) port: u16,
    pub(crate) stream: TcpStream,
}

// Creates a listener at which about `backlog` connections wait to be accepted. At a full listener,
// a client's connect doesn't end (listen(2)). If the system refuses that length, its default stays.
fn listen(net: &impl Net, ip: u32, port: u16, backlog: u16) -> io::Result<TcpListener> {
    let listener = TcpListener::bind(net, socket_addr(Address { ip, port }))?;
    c::listen(listener.as_raw_fd(), backlog as i32);
    Ok(listener)
}

impl Listeners {
    /// Binds both listeners at an IPv4 address. Port 0 lets the system choose one. At each
    /// listener, about `backlog` connections wait that aren't accepted yet. What comes from clients
    /// is counted in `arrivals`, and so is the end of doors. `carried` goes to clients of RTSP.
    pub fn bind(
        net: &impl Net,
        ip: u32,
        rtsp_port: u16,
        http_port: u16,
        backlog: u16,
        arrivals: Arc<Arrivals>,
        carried: Carried,
    ) -> Result<Listeners, BindFault> {
        let rtsp = match listen(net, ip, rtsp_port, backlog) {
            Ok(rtsp) => rtsp,
            Err(error) => return Err(BindFault::Rtsp(error)),
        };
        match listen(net, ip, http_port, backlog) {
            Ok(http) => Ok(Listeners {
                rtsp,
                http,
                shortages: Throttle::new(),
                failures: Count::new(),
                arrivals,
                carried,
                crowded: AtomicBool::new(false),
                stop: None,
                closed: AtomicBool::new(false),
            }),
            Err(error) => Err(BindFault::Http(error)),
        }
    }

    /// Returns these listeners, of a server that is asked to end by `stop`.
    pub fn ending_by(self, stop: Stop) -> Listeners {
        Listeners {
            stop: Some(stop),
            ..self
        }
    }

    /// Returns whether the server may be asked to end.
    pub(crate) fn may_stop(&self) -> bool {
        self.stop.is_some()
    }

    /// Closes both listeners: what waits there is reset, each wait for it ends, and another server can
    /// have the ports (shutdown(2)).
    pub fn shut_down(&self) {
        if !self.closed.swap(true, Ordering::SeqCst) {
            c::shutdown(self.rtsp.as_raw_fd(), c::SHUT_RDWR);
            c::shutdown(self.http.as_raw_fd(), c::SHUT_RDWR);
        }
    }

    /// Returns whether the server was asked to end. Both listeners are closed then.
    pub(crate) fn is_stopped(&self) -> bool {
        let Some(stop) = &self.stop else {
            return false;
        };
        if !stop.is_asked() {
            return false;
        }
        self.shut_down();
        true
    }

    /// Returns whether the connections of a server that was asked to end have to end now.
    pub(crate) fn is_over(&self) -> bool {
        match &self.stop {
            Some(stop) => self.is_stopped() && stop.is_over(),
            None => false,
        }
    }

    /// Returns the wait for bytes of a connection, in milliseconds, that is to last this long.
    pub(crate) fn wait_ms(&self, wait_ms: u64) -> u64 {
        match self.stop {
            Some(_) => wait_ms.min(STOP_WAIT_MS),
            None => wait_ms,
        }
    }

    /// Counts a connection that was accepted.
    pub(crate) fn enter(&self) {
        if let Some(stop) = &self.stop {
            stop.enter();
        }
    }

    /// Counts a connection that has ended.
    pub(crate) fn leave(&self) {
        if let Some(stop) = &self.stop {
            stop.leave();
        }
    }

    /// Returns the count of lines on connections that can't be taken and on the end of the server.
    pub fn lines(&self) -> u64 {
        let stopping = match &self.stop {
            Some(stop) => stop.lines(),
            None => 0,
        };
        stopping
            .saturating_add(self.shortages.lines())
            .saturating_add(self.failures.get())
    }

    /// Returns the port of the RTSP listener.
    pub fn rtsp_port(&self) -> io::Result<u16> {
        Ok(self.rtsp.local_addr()?.port())
    }

    /// Returns the port of the HTTP listener.
    pub fn http_port(&self) -> io::Result<u16> {
        Ok(self.http.local_addr()?.port())
    }

    /// Returns whether a connection waits at one of the listeners.
    pub(crate) fn somebody_waits(&self) -> bool {
        let (rtsp, http) = have_input(&self.rtsp, &self.http, 0);
        rtsp || http
    }

    /// Notes that a client that ended no message was given up, since others wait.
    pub(crate) fn note_crowd(&self) {
        self.crowded.store(true, Ordering::SeqCst);
    }

    /// Returns whether such a client was given up, and others waited since then.
    pub(crate) fn is_crowded(&self) -> bool {
        self.crowded.load(Ordering::SeqCst)
    }

    /// Returns the next connection, one for RTSP first, after a wait of up to `wait_ms`
    /// milliseconds; `None` if none came.
    pub(crate) fn accept(&self, wait_ms: i32) -> io::Result<Option<Visitor>> {
        let wait_ms = match self.stop {
            Some(_) => wait_ms.min(LOOK_MS),
            None => wait_ms,
        };
        let (rtsp, http) = have_input(&self.rtsp, &self.http, wait_ms);
        if !rtsp && !http {
            self.crowded.store(false, Ordering::SeqCst);
        }
        if rtsp {
            if let Some(visitor) = accept_at(&self.rtsp, DoorKind::Rtsp)? {
                return Ok(Some(visitor));
            }
        }
        if http {
            return accept_at(&self.http, DoorKind::Http);
        }
        Ok(None)
    }
}

// Returns the next connection at a listener; `None` if another worker was faster. An error that may
// be the listener's own is tried a second time: the listener returns it again. An error of one new
// connection, which has to be made non-blocking, doesn't return.
fn accept_at(listener: &TcpListener, kind: DoorKind) -> io::Result<Option<Visitor>> {
    match accept_once(listener, kind) {
        Err(error) if ends_listening(&error) => accept_once(listener, kind),
        answer => answer,
    }
}

fn accept_once(listener: &TcpListener, kind: DoorKind) -> io::Result<Option<Visitor>> {
    match listener.accept() {
        Ok((stream, addr)) => Ok(peer_of(addr).map(|peer| Visitor {
            kind,
            peer,
            port: addr.port(),
            stream,
        })),
        Err(error) if error.kind() == io::ErrorKind::WouldBlock => Ok(None),
        Err(error) => Err(error),
    }
}
