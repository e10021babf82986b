//! Datagrams that are received at an even port.

ghost use Rattle.std.specs.Prelude.{◌≡◌, ◌≤◌, ◌%◌, IfOk, IfSome, length};
ghost use Rattle.satip_world.specs.Inboxes.{fresh_inbox};

use crate::addresses::{peer_of, socket_addr};
use crate::errors::{comes_later, is_taken};
use crate::options::widen_input;
use crate::readiness::has_input;
use mio::net::UdpSocket;
use satip_base::{Address, Peer};
use satip_world::{Inlet, Received};
use std::io;
use std::io::ErrorKind;
use std::marker::Model;
use std::net::SocketAddr;

// The time for which a receive waits for a datagram, in milliseconds.
const WAIT_MS: i32 = 1;

// How many ports are tried; the other port of a pair may be in use.
const TRIES: u32 = 64;

// The most datagrams of other hosts that a receive drops before it looks for one later.
const OTHERS: u32 = 64;

/// A UDP socket at an even port, with the largest receive buffer that the system gives. Datagrams
/// of other hosts than its server are dropped, if it has one.
///
/// The next port is bound too and never read. So no other program gets what the server sends there,
/// and the server gets no error that the port is closed.
///
/// A receive waits up to 1 ms for a datagram, and is idle if none came. Errors of the network don't
/// count (udp(7)); those of the socket itself are its faults.
#[derive(Drop)]
pub struct RealInlet {
    socket: UdpSocket,
    _beside: UdpSocket,
    server: Option<Peer>,
    port: u16,
    count: u64,
    idles: u64,
    faults: u64,
}

impl Model for RealInlet {
    ghost use Rattle.std.specs.Prelude.{◌≡◌, ◌≤◌, ◌%◌, []};
    ghost use Rattle.satip_world.specs.Inboxes.{Inbox};

    ghost Value = { Inbox };

    ghost view = { λ i. record {
      port = i.port;
      count = i.count;
      given = [];
      idles = i.idles;
      faults = i.faults;
    } };

    ghost invariant = { λ i. (1 ≤ i.port) × (i.port ≤ 65534) };
}

// Returns the even port of the pair that contains a port; `None` for ports 0 and 1.
fn even_port(port: u16) -> Option<u16>
    ensures even { IfSome result (λ even. even % 2 ≡ 0) }
    ensures some { IfSome result (λ even. 1 ≤ even) }
    ensures next { IfSome result (λ even. even ≤ 65534) }
{
    let even = port / 2 * 2;
    if even == 0 {
        return None;
    }
    Some(even)
}

fn bind_at(rt: &HostRuntime, ip: u32, port: u16) -> io::Result<UdpSocket> {
    UdpSocket::bind(rt, socket_addr(Address { ip, port }))
}

// Opens a socket at a port; `None` if that port is in use or allowed to others only.
fn bind_if_free(rt: &HostRuntime, ip: u32, port: u16) -> io::Result<Option<UdpSocket>> {
    match bind_at(rt, ip, port) {
        Ok(socket) => Ok(Some(socket)),
        Err(error) if is_taken(&error) => Ok(None),
        Err(error) => Err(error),
    }
}

// Binds a port that the system chooses, and the other one of its pair; `None` if that one isn't
// available.
fn try_bind(rt: &HostRuntime, ip: u32, server: Option<Peer>) -> io::Result<Option<RealInlet>>
    ensures fresh { IfOk result (λ found. IfSome found (λ inlet. inlet ≡ fresh_inbox inlet.port)) }
    ensures even { IfOk result (λ found. IfSome found (λ inlet. inlet.port % 2 ≡ 0)) }
{
    let chosen = bind_at(rt, ip, 0)?;
    let chosen_port = chosen.local_addr()?.port();
    let Some(port) = even_port(chosen_port) else {
        return Ok(None);
    };
    let other_port = if chosen_port == port { port + 1 } else { port };
    let Some(other) = bind_if_free(rt, ip, other_port)? else {
        return Ok(None);
    };
    if chosen_port == port {
        return Ok(Some(RealInlet::over(chosen, other, port, server)));
    }
    Ok(Some(RealInlet::over(other, chosen, port, server)))
}

impl RealInlet {
    ghost use Rattle.satip_world.specs.Inboxes.{fresh_inbox};

    /// Binds an even port and the next one at an IPv4 address of the host, or at all its addresses
    /// if it is 0. No datagram was received yet. Drops datagrams of other hosts than `server`.
    pub fn bind(rt: HostRuntime, ip: u32, server: Option<Peer>) -> io::Result<RealInlet>
        ensures fresh { IfOk result (λ inlet. inlet ≡ fresh_inbox inlet.port) }
        ensures even { IfOk result (λ inlet. inlet.port % 2 ≡ 0) }
    {
        for _ in 0..TRIES {
            if let Some(inlet) = try_bind(&rt, ip, server)? {
                return Ok(inlet);
            }
        }
        Err(io::Error::from(ErrorKind::AddrInUse))
    }

    fn over(socket: UdpSocket, beside: UdpSocket, port: u16, server: Option<Peer>) -> RealInlet
        requires some { 1 ≤ port }
        requires next { port ≤ 65534 }
        ensures fresh { result ≡ fresh_inbox port }
    {
        widen_input(&socket);
        RealInlet {
            socket,
            _beside: beside,
            server,
            port,
            count: 0,
            idles: 0,
            faults: 0,
        }
    }

    // Returns whether a datagram of this sender is received.
    fn hears(&self, from: SocketAddr) -> bool {
        self.server.is_none() || peer_of(from) == self.server
    }

    // Takes the oldest datagram of the server, and drops those of others; `None` if there is none.
    fn take(&self, buf: &mut [u8]) -> io::Result<Option<usize>>
        ensures within { IfOk result (λ came. IfSome came (λ size. size ≤ length buf.new)) }
    {
        for _ in 0..OTHERS {
            match self.socket.recv_from(buf) {
                Ok((size, from)) if self.hears(from) => return Ok(Some(size)),
                Ok(_) => {}
                Err(error) if comes_later(&error) => return Ok(None),
                Err(error) => return Err(error),
            }
        }
        Ok(None)
    }

    // Takes a datagram, and waits for one if there is none.
    fn await_one(&self, buf: &mut [u8]) -> io::Result<Option<usize>>
        ensures within { IfOk result (λ came. IfSome came (λ size. size ≤ length buf.new)) }
    {
        if let Some(size) = self.take(buf)? {
            return Ok(Some(size));
        }
        if !has_input(&self.socket, WAIT_MS) {
            return Ok(None);
        }
        self.take(buf)
    }
}

impl Inlet for RealInlet {
    ghost tells = { ⊥ };

    ghost inbox = { λ i. i };

    fn port(&self) -> u16 {
        self.port
    }

    fn receive(&mut self, buf: &mut [u8]) -> Received {
        match self.await_one(buf) {
            Ok(Some(size)) => {
                self.count = self.count.saturating_add(1);
                Received::Got(size)
            }
            Ok(None) => {
                self.idles = self.idles.saturating_add(1);
                Received::Idle
            }
            Err(_) => {
                self.faults = self.faults.saturating_add(1);
                Received::Failed
            }
        }
    }
}
