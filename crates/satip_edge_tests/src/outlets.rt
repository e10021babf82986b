//! Outlets over loopback.

use crate::checks::check;
use crate::sockets::{LOCALHOST, bind, local};
use satip_base::{Address, Put};
use satip_datagrams::{RealOutlet, SharedSocket};
use satip_world::Outlet;
use std::net::UdpSocket;
use std::process::Abort;
use std::sync::atomic::{AtomicU64, Ordering};
use std::sync::{Arc, Wait};
use std::thread;

// Sends a datagram to a port of loopback as an event of its own.
fn post<R: Wait + Drop>(outlet: &mut RealOutlet<R>, port: u16, bytes: &[u8]) -> Put {
    post_to(outlet, local(port), bytes)
}

/// Sends a datagram as an event of its own. The first call does nothing, since nothing was begun.
pub(crate) fn post_to<R: Wait + Drop>(
    outlet: &mut RealOutlet<R>,
    to: Address,
    bytes: &[u8],
) -> Put {
    outlet.unlock();
    outlet.lock();
    let put = outlet.send(to, bytes);
    outlet.unlock();
    put
}

/// Binds a socket of a client. Returns its port too.
pub(crate) fn bind_client(rt: &impl Abort, host: HostRuntime) -> (UdpSocket, u16) {
    let socket = bind(rt, host, 1, 0);
    let port = socket.local_addr().expect(rt, "address").port();
    (socket, port)
}

// Asserts that just this text is the next datagram that comes.
fn check_comes(rt: &impl Abort, name: &str, socket: &UdpSocket, text: &[u8]) {
    let mut buf = [0; 16];
    let (count, _) = socket.recv_from(&mut buf).expect(rt, "datagram");
    check(rt, name, buf.get(..count), Some(text));
}

// Binds the socket of a server, which its outlets share.
fn bind_server(rt: &impl Abort, host: HostRuntime) -> Arc<SharedSocket> {
    let socket = SharedSocket::bind(host, LOCALHOST).expect(rt, "socket");
    Arc::new(host.alloc(), socket).expect(rt, "out of memory")
}

#[test]
fn a_datagram_arrives(rt: HostRuntime) {
    let mut outlet = RealOutlet::new(rt, bind_server(&rt, rt));
    let (socket, port) = bind_client(&rt, rt);
    let long = vec![in rt.alloc(); 0; 65536].expect(&rt, "out of memory");
    check(&rt, "short", post(&mut outlet, port, b"abc"), Put::Whole);
    check(&rt, "long", post(&mut outlet, port, &long), Put::Failed);
    check_comes(&rt, "short", &socket, b"abc");
}

#[test]
fn a_datagram_after_a_refused_one_arrives(rt: HostRuntime) {
    let mut outlet = RealOutlet::new(rt, bind_server(&rt, rt));
    let (socket, port) = bind_client(&rt, rt);
    drop(socket);
    check(&rt, "lost", post(&mut outlet, port, b"lost"), Put::Whole);
    let socket = bind(&rt, rt, 1, port);
    check(&rt, "next", post(&mut outlet, port, b"abc"), Put::Whole);
    check_comes(&rt, "next", &socket, b"abc");
}

// Binds the sockets of this number of clients, with their ports.
fn bind_clients(rt: &impl Abort, host: HostRuntime, count: u32) -> Vec<(UdpSocket, u16)> {
    let mut clients = Vec::new(host.alloc());
    for _ in 0..count {
        clients
            .push(bind_client(rt, host))
            .expect(rt, "out of memory");
    }
    clients
}

#[test]
fn more_destinations_than_sockets_are_sent_to(rt: HostRuntime) {
    let mut outlet = RealOutlet::new(rt, bind_server(&rt, rt));
    let clients = bind_clients(&rt, rt, 130);
    for text in [b"a", b"b"] {
        for (_, port) in &clients {
            check(&rt, "sent", post(&mut outlet, *port, text), Put::Whole);
        }
    }
    for (socket, _) in &clients {
        check_comes(&rt, "first", socket, b"a");
        check_comes(&rt, "second", socket, b"b");
    }
}

// Sends 40 datagrams, each with the count of those that were begun before.
fn send_counts<R: Wait + Drop>(rt: R, shared: Arc<SharedSocket>, begun: Arc<AtomicU64>, port: u16) {
    let mut outlet = RealOutlet::new(rt, shared);
    for _ in 0..40 {
        outlet.lock();
        let count = begun.fetch_add(1, Ordering::SeqCst);
        thread::yield_now();
        outlet.send(local(port), &count.to_be_bytes());
        outlet.unlock();
    }
}

// Returns the next count that comes, with its length.
fn next_count(rt: &impl Abort, socket: &UdpSocket) -> (usize, u64) {
    let mut buf = [0; 8];
    let (length, _) = socket.recv_from(&mut buf).expect(rt, "datagram");
    (length, u64::from_be_bytes(buf))
}

#[test]
fn datagrams_of_three_threads_leave_in_order(rt: HostRuntime) {
    let (socket, port) = bind_client(&rt, rt);
    let shared = bind_server(&rt, rt);
    let begun = Arc::new(rt.alloc(), AtomicU64::new(0)).expect(&rt, "out of memory");
    let mut senders = Vec::new(rt.alloc());
    for _ in 0..3 {
        let shared = Arc::try_clone(&shared).expect(&rt, "another owner");
        let begun = Arc::try_clone(&begun).expect(&rt, "another owner");
        let sender = thread::spawn(&rt, move || send_counts(rt, shared, begun, port));
        let sender = sender.expect(&rt, "thread");
        senders.push(sender).expect(&rt, "out of memory");
    }
    for place in 0..120u64 {
        check(&rt, "count", next_count(&rt, &socket), (8, place));
    }
    for sender in senders {
        sender.join(&rt);
    }
}
