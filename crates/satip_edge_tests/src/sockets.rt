//! Sockets over loopback, and what connections and inlets receive.

use crate::checks::check;
use satip_base::Address;
use satip_datagrams::RealInlet;
use satip_host::Arrivals;
use satip_real::{Carried, Listeners, RealConn};
use satip_world::{Conn, Inlet, Received};
use std::net::{Ipv4Addr, SocketAddr, TcpListener, TcpStream, UdpSocket};
use std::process::Abort;
use std::sync::Arc;
use std::time::Duration;

pub(crate) const LOCALHOST: u32 = 0x7f00_0001;

/// Returns a port of loopback.
pub(crate) fn local(port: u16) -> Address {
    Address {
        ip: LOCALHOST,
        port,
    }
}

/// Returns a port of 127.0.0.`last`.
pub(crate) fn socket_addr(last: u8, port: u16) -> SocketAddr {
    SocketAddr::from((Ipv4Addr::new(127, 0, 0, last), port))
}

/// Returns the count of arrivals of a server to which nothing came.
pub(crate) fn no_arrivals(rt: &impl Abort, host: HostRuntime) -> Arc<Arrivals> {
    let arrivals = Arrivals::with_places(host.alloc(), 1).expect(rt, "out of memory");
    Arc::new(host.alloc(), arrivals).expect(rt, "out of memory")
}

/// Binds the listeners of a server at free ports of loopback. Replies alone go to its clients.
pub(crate) fn listen(rt: &impl Abort, host: HostRuntime) -> Listeners {
    listen_with(rt, host, no_arrivals(rt, host), Carried::Replies)
}

/// Binds listeners that count arrivals there, and whose RTSP connections carry this.
pub(crate) fn listen_with(
    rt: &impl Abort,
    host: HostRuntime,
    arrivals: Arc<Arrivals>,
    carried: Carried,
) -> Listeners {
    Listeners::bind(&host, LOCALHOST, 0, 0, 8, arrivals, carried).expect(rt, "listeners")
}

/// Binds a listener at a free port of 127.0.0.`last`. Returns its port too.
pub(crate) fn listen_at(rt: &impl Abort, host: HostRuntime, last: u8) -> (TcpListener, u16) {
    let listener = TcpListener::bind(&host, socket_addr(last, 0)).expect(rt, "listener");
    let port = listener.local_addr().expect(rt, "address").port();
    (listener, port)
}

/// Connects a client to a server.
pub(crate) fn connect(rt: &impl Abort, host: HostRuntime, server: SocketAddr) -> TcpStream {
    TcpStream::connect(&host, server).expect(rt, "connection")
}

/// Binds a UDP socket at a port of 127.0.0.`last`, or at a free one where it is 0. It waits five
/// seconds for a datagram.
pub(crate) fn bind(rt: &impl Abort, host: HostRuntime, last: u8, port: u16) -> UdpSocket {
    let socket = UdpSocket::bind(&host, socket_addr(last, port)).expect(rt, "socket");
    socket
        .set_read_timeout(Some(Duration::from_secs(5)))
        .expect(rt, "timeout");
    socket
}

/// Receives until a connection is not idle, but not for ever.
pub(crate) fn receive(conn: &mut RealConn, buf: &mut [u8; 16]) -> Received {
    for _ in 0..100 {
        match conn.receive(buf) {
            Received::Idle => (),
            received => return received,
        }
    }
    Received::Idle
}

/// Asserts that a connection receives just this text next.
pub(crate) fn check_heard(rt: &impl Abort, name: &str, conn: &mut RealConn, text: &[u8]) {
    let mut buf = [0; 16];
    let received = receive(conn, &mut buf);
    check(rt, name, received, Received::Got(text.len()));
    check(rt, name, buf.get(..text.len()), Some(text));
}

/// Asserts that a connection has these results next.
pub(crate) fn check_received(
    rt: &impl Abort,
    name: &str,
    conn: &mut RealConn,
    wanted: &[Received],
) {
    for received in wanted {
        check(rt, name, receive(conn, &mut [0; 16]), *received);
    }
}

/// Asserts that an inlet has these results next.
pub(crate) fn check_inlet(rt: &impl Abort, name: &str, inlet: &mut RealInlet, wanted: &[Received]) {
    let mut buf = [0; 2048];
    for received in wanted {
        check(rt, name, inlet.receive(&mut buf), *received);
    }
}
