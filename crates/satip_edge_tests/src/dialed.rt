//! The adapters of a client over loopback: a connection that it dials, and its inlet.

use crate::checks::{check, check_within};
use crate::sockets::{
    LOCALHOST, bind, check_heard, check_inlet, check_received, listen_at, local, socket_addr,
};
use satip_base::{Address, Peer, Put};
use satip_datagrams::RealInlet;
use satip_desk::Desk;
use satip_host::RealClock;
use satip_real::RealConn;
use satip_real_desk::{Carried, RealDesk};
use satip_world::{Clock, Conn, ConnEnd, Inlet, Received};
use std::io::{ErrorKind, Read, Write};
use std::net::{SocketAddr, TcpStream, UdpSocket};
use std::process::Abort;
use std::sync::Wait;
use std::thread::Threads;

// Asks a server that is silent so far. Asserts that nothing was received before, and that the
// server reads the request.
fn check_asked(rt: &impl Abort, conn: &mut RealConn, server: &mut TcpStream) {
    let mut request = [0; 5];
    check(rt, "before", conn.receive(&mut [0; 16]), Received::Idle);
    check(rt, "request", conn.send(b"SETUP"), Put::Whole);
    server.read_exact(&mut request).expect(rt, "request");
    check(rt, "request", request, *b"SETUP");
}

// Dials a server. Returns the connection, and the one that the server has.
fn dial(rt: &impl Abort, host: HostRuntime) -> (RealConn, TcpStream) {
    let (listener, port) = listen_at(rt, host, 1);
    let conn = RealConn::dial(host, local(port)).expect(rt, "connection");
    let (server, _) = listener.accept().expect(rt, "connection");
    (conn, server)
}

#[test]
fn a_dialed_server_is_asked_and_heard(rt: HostRuntime) {
    let (mut conn, mut server) = dial(&rt, rt);
    check_asked(&rt, &mut conn, &mut server);
    server.write_all(b"200").expect(&rt, "reply");
    check_heard(&rt, "reply", &mut conn, b"200");
    drop(server);
    check_received(&rt, "left", &mut conn, &[Received::End; 2]);
    conn.close(rt, ConnEnd::Done);
}

#[test]
fn nobody_is_dialed_at_a_closed_port(rt: HostRuntime) {
    let (listener, port) = listen_at(&rt, rt, 1);
    drop(listener);
    let kind = match RealConn::dial(rt, local(port)) {
        Ok(_) => None,
        Err(error) => Some(error.kind()),
    };
    check(&rt, "dialed", kind, Some(ErrorKind::ConnectionRefused));
}

// Sends these datagrams one after another.
fn send_each(rt: &impl Abort, sender: &UdpSocket, to: SocketAddr, datagrams: &[&[u8]]) {
    for datagram in datagrams {
        sender.send_to(datagram, to).expect(rt, "datagram");
    }
}

#[test]
fn an_inlet_gives_each_datagram_and_is_idle_else(rt: HostRuntime) {
    let mut inlet = RealInlet::bind(rt, LOCALHOST, None).expect(&rt, "inlet");
    check_inlet(&rt, "before", &mut inlet, &[Received::Idle]);
    let to = socket_addr(1, inlet.port());
    // A short datagram, one that is longer than a buffer of 2048 bytes, and an empty one.
    let long = vec![in rt.alloc(); 7; 3000].expect(&rt, "out of memory");
    send_each(&rt, &bind(&rt, rt, 1, 0), to, &[b"abc", &long, b""]);
    let mut buf = [0; 2048];
    check(&rt, "first", inlet.receive(&mut buf), Received::Got(3));
    check(&rt, "first", buf.get(..3), Some(b"abc".as_slice()));
    let rest = [Received::Got(2048), Received::Got(0), Received::Idle];
    check_inlet(&rt, "rest", &mut inlet, &rest);
}

// Sends 65 datagrams to the port of a host. The first and the last come from 127.0.0.2, the others
// from 127.0.0.3.
fn send_among_others(rt: &impl Abort, host: HostRuntime, to: SocketAddr) {
    let (server, other) = (bind(rt, host, 2, 0), bind(rt, host, 3, 0));
    send_each(rt, &server, to, &[b"abc"]);
    for _ in 0..63 {
        send_each(rt, &other, to, &[b"other"]);
    }
    send_each(rt, &server, to, &[b"defg"]);
}

// The two datagrams of 127.0.0.2.
const TWO: &[Received] = &[Received::Got(3), Received::Got(4), Received::Idle];

#[test]
fn an_inlet_drops_what_others_send(rt: HostRuntime) {
    let server = Some(Peer { ip: 0x7f00_0002 });
    let mut inlet = RealInlet::bind(rt, 0, server).expect(&rt, "inlet");
    send_among_others(&rt, rt, socket_addr(1, inlet.port()));
    check_inlet(&rt, "received", &mut inlet, TWO);
}

// The devices of a client.
#[derive(Drop)]
struct Client {
    moment: RealClock,
    wire: RealConn,
    inlet: RealInlet,
}

// Returns what a desk gives a client of a server at 127.0.0.2.
fn make_client<R: Wait + Threads + Abort + Copy + Drop + Send>(
    host: HostRuntime,
    rt: R,
    port: u16,
) -> Client {
    let mut desk = RealDesk::new(host, rt, Carried::Replies);
    let moment = desk.moment();
    let to = Address {
        ip: 0x7f00_0002,
        port,
    };
    Client {
        moment,
        wire: desk.dial(to).expect(&rt, "connection"),
        inlet: desk.inlet().expect(&rt, "inlet"),
    }
}

#[test]
fn a_desk_gives_a_client_its_devices(rt: HostRuntime) {
    let (listener, port) = listen_at(&rt, rt, 2);
    let mut client = make_client(rt, rt, port);
    let (mut server, _) = listener.accept().expect(&rt, "connection");
    check_asked(&rt, &mut client.wire, &mut server);
    // The inlet is at each address of the host, and hears the server alone.
    for (name, last) in [("at 127.0.0.1", 1), ("at 127.0.0.2", 2)] {
        let to = socket_addr(last, client.inlet.port());
        send_among_others(&rt, rt, to);
        check_inlet(&rt, name, &mut client.inlet, TWO);
    }
    let shown = client.moment.now();
    check_within(&rt, "moment", client.moment.now(), shown, u64::MAX);
}

#[test]
fn inlets_have_even_ports_and_the_next_ones(rt: HostRuntime) {
    let mut inlets = Vec::new(rt.alloc());
    for _ in 0..20 {
        let inlet = RealInlet::bind(rt, 0, None).expect(&rt, "inlet");
        let port = inlet.port();
        check(&rt, "even port", port % 2, 0);
        for taken in [port, port.saturating_add(1)] {
            let is_free = UdpSocket::bind(&rt, socket_addr(1, taken)).is_ok();
            check(&rt, "is free", (taken, is_free), (taken, false));
        }
        inlets.push(inlet).expect(&rt, "out of memory");
    }
}
