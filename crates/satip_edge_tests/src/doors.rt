//! Doors over loopback, and the connections that come by them.

use crate::checks::{check, check_within};
use crate::sockets::{
    LOCALHOST, check_heard, check_received, connect, listen, listen_with, no_arrivals, receive,
    socket_addr,
};
use satip_base::{Peer, Put};
use satip_host::{Arrivals, Start, Starts};
use satip_real::{BindFault, Carried, Listeners, RealConn, RealDoors};
use satip_world::{Conn, ConnEnd, Door, DoorKind, Doors, Received};
use std::alloc::Global;
use std::io::{Read, Write};
use std::net::{Shutdown, SocketAddr, TcpStream};
use std::process::Abort;
use std::sync::{Arc, Wait};
use std::thread;
use std::thread::Threads;
use std::time::{Duration, Instant};

/// Turns of the doors until one is another than Idle.
pub(crate) fn next_come(doors: &mut RealDoors) -> Door<RealConn> {
    for _ in 0..100 {
        match doors.next() {
            Door::Idle => (),
            door => return door,
        }
    }
    Door::Idle
}

/// What doors say of a client, and its connection.
pub(crate) type Came = (DoorKind, Peer, RealConn);

/// Returns the next client at the doors.
pub(crate) fn next_client(rt: &impl Abort, doors: &mut RealDoors) -> Came {
    match next_come(doors) {
        Door::Came { kind, peer, conn } => (kind, peer, conn),
        _ => panic!(rt; "no connection"),
    }
}

// Asserts that doors give nothing within one wait.
fn check_idle(rt: &impl Abort, name: &str, doors: &mut RealDoors) {
    check(rt, name, matches!(doors.next(), Door::Idle), true);
}

// Asserts that doors end, and end again.
fn check_end(rt: &impl Abort, name: &str, doors: &mut RealDoors) {
    for _ in 0..2 {
        check(rt, name, matches!(next_come(doors), Door::End), true);
    }
}

/// Returns the start of a server's one job.
pub(crate) fn start(rt: &impl Abort, alloc: Global) -> Start {
    let starts = Arc::new(alloc, Starts::expect(1)).expect(rt, "out of memory");
    Start::counting(&starts).expect(rt, "out of memory")
}

// Doors of a new server, and the addresses of its listeners for RTSP and for HTTP.
#[derive(Drop)]
struct Server {
    doors: RealDoors,
    rtsp: SocketAddr,
    http: SocketAddr,
}

// Opens doors, which give up clients that are silent for `timeout_s` seconds, and end after `limit`
// connections.
fn open_doors(rt: &impl Abort, host: HostRuntime, timeout_s: u32, limit: u32) -> Server {
    serve_at(rt, host, listen(rt, host), timeout_s, limit)
}

fn serve_at(
    rt: &impl Abort,
    host: HostRuntime,
    listeners: Listeners,
    timeout_s: u32,
    limit: u32,
) -> Server {
    let rtsp = socket_addr(1, listeners.rtsp_port().expect(rt, "port"));
    let http = socket_addr(1, listeners.http_port().expect(rt, "port"));
    let listeners = Arc::new(host.alloc(), listeners).expect(rt, "out of memory");
    let start = start(rt, host.alloc());
    Server {
        doors: RealDoors::new(host, start, listeners, timeout_s, limit),
        rtsp,
        http,
    }
}

/// Opens doors, and connects a client for RTSP, which comes by them.
pub(crate) fn meet(
    rt: &impl Abort,
    host: HostRuntime,
    timeout_s: u32,
) -> (RealDoors, TcpStream, Came) {
    meet_at(rt, host, listen(rt, host), timeout_s)
}

/// Opens doors at these listeners, and connects a client for RTSP, which comes by them.
pub(crate) fn meet_at(
    rt: &impl Abort,
    host: HostRuntime,
    listeners: Listeners,
    timeout_s: u32,
) -> (RealDoors, TcpStream, Came) {
    let Server {
        mut doors,
        rtsp,
        ..
    } = serve_at(rt, host, listeners, timeout_s, 0);
    let client = connect(rt, host, rtsp);
    let came = next_client(rt, &mut doors);
    (doors, client, came)
}

// Asks, reads the reply, and leaves. Asserts that nothing was heard before.
fn ask_and_leave(rt: &impl Abort, client: TcpStream, conn: &mut RealConn) {
    let mut client = client;
    let mut reply = [0; 3];
    check(rt, "before", conn.receive(&mut [0; 16]), Received::Idle);
    client.write_all(b"GET").expect(rt, "request");
    check_heard(rt, "request", conn, b"GET");
    check(rt, "reply", conn.send(b"200"), Put::Whole);
    client.read_exact(&mut reply).expect(rt, "reply");
    check(rt, "reply", reply, *b"200");
}

#[test]
fn a_connection_is_heard_and_answered(rt: HostRuntime) {
    let Server {
        mut doors,
        http,
        ..
    } = open_doors(&rt, rt, 60, 1);
    check_idle(&rt, "before a client", &mut doors);
    let client = connect(&rt, rt, http);
    let (kind, peer, mut conn) = next_client(&rt, &mut doors);
    let wanted = (DoorKind::Http, Peer { ip: LOCALHOST });
    check(&rt, "client", (kind, peer), wanted);
    ask_and_leave(&rt, client, &mut conn);
    check_received(&rt, "left", &mut conn, &[Received::End; 2]);
    doors.back(conn, kind, peer, ConnEnd::Done);
    check_end(&rt, "limit", &mut doors);
}

// Reads this number of bytes, and counts those that came.
fn read_in_pieces(stream: TcpStream, wanted: usize) -> usize {
    let mut stream = stream;
    let mut buf = [0u8; 4096];
    let mut count = 0usize;
    for _ in 0..wanted {
        if count >= wanted {
            break;
        }
        match stream.read(&mut buf) {
            Ok(more) => count = count.saturating_add(more),
            Err(_) => break,
        }
    }
    count
}

// Sends 16 megabytes to a client that reads them in another thread. Returns the number that it
// read.
fn send_much<R: Threads + Wait + Abort>(
    rt: &R,
    alloc: Global,
    client: TcpStream,
    conn: &mut RealConn,
) -> (Put, usize) {
    let text = vec![in alloc; 7; 16777216].expect(rt, "out of memory");
    let reader = thread::spawn(rt, move || read_in_pieces(client, 16777216)).expect(rt, "thread");
    let put = conn.send(&text);
    (put, reader.join(rt))
}

fn sends_until_a_failure(conn: &mut RealConn) -> Put {
    for _ in 0..1000 {
        if conn.send(b"more") == Put::Failed {
            return Put::Failed;
        }
    }
    Put::Whole
}

#[test]
fn a_long_reply_waits_for_its_client(rt: HostRuntime) {
    let (mut doors, client, came) = meet(&rt, rt, 60);
    let (kind, peer, mut conn) = came;
    check(&rt, "client", kind, DoorKind::Rtsp);
    let sent = send_much(&rt, rt.alloc(), client, &mut conn);
    check(&rt, "reply", sent, (Put::Whole, 16777216));
    check(&rt, "left", sends_until_a_failure(&mut conn), Put::Failed);
    doors.back(conn, kind, peer, ConnEnd::WriteFault);
    check_idle(&rt, "after a client", &mut doors);
}

// Asserts that doors with a limit give this number of connections, though four clients come.
fn check_limit(rt: &impl Abort, host: HostRuntime, name: &str, limit: u32) {
    let Server {
        mut doors,
        rtsp,
        ..
    } = open_doors(rt, host, 60, limit);
    let mut clients = Vec::new(host.alloc());
    for _ in 0..4 {
        clients
            .push(connect(rt, host, rtsp))
            .expect(rt, "out of memory");
    }
    for _ in 0..limit {
        drop(next_client(rt, &mut doors));
    }
    check_end(rt, name, &mut doors);
}

#[test]
fn doors_give_exactly_as_many_as_their_limit(rt: HostRuntime) {
    for (name, limit) in [("two", 2), ("three", 3)] {
        check_limit(&rt, rt, name, limit);
    }
}

#[test]
fn a_silent_client_is_given_up(rt: HostRuntime) {
    let (_doors, mut client, came) = meet(&rt, rt, 1);
    let (_, _, mut conn) = came;
    client.write_all(b"ask").expect(&rt, "request");
    check_heard(&rt, "request", &mut conn, b"ask");
    check_received(&rt, "silent", &mut conn, &[Received::Failed]);
}

/// Returns the milliseconds since a moment.
pub(crate) fn elapsed_ms(rt: &impl Abort, host: HostRuntime, begin: &Instant) -> u64 {
    let elapsed = begin.elapsed(&host).expect(rt, "clock");
    u64::try_from(elapsed.as_millis()).unwrap_or(0)
}

// Returns the milliseconds until a connection fails.
fn time_failure(rt: &impl Abort, host: HostRuntime, conn: &mut RealConn) -> u64 {
    let begin = Instant::now(&host).expect(rt, "clock");
    for _ in 0..100_000 {
        if conn.receive(&mut [0; 16]) == Received::Failed {
            break;
        }
    }
    elapsed_ms(rt, host, &begin)
}

// Connects two clients. Returns the first, and the connection by which it comes, while the second
// waits at the doors.
fn meet_first_of_two(rt: &impl Abort, host: HostRuntime) -> (Server, [TcpStream; 2], RealConn) {
    let mut server = open_doors(rt, host, 60, 0);
    let first = connect(rt, host, server.rtsp);
    let (_, _, conn) = next_client(rt, &mut server.doors);
    let second = connect(rt, host, server.rtsp);
    (server, [first, second], conn)
}

#[test]
fn a_client_that_sends_nothing_lets_others_in(rt: HostRuntime) {
    let (_server, _clients, mut conn) = meet_first_of_two(&rt, rt);
    let failed_ms = time_failure(&rt, rt, &mut conn);
    check_within(&rt, "no byte", failed_ms, 1_900, 20_000);
}

// Sends a byte each 100 ms, until the server has given up.
fn drip(host: HostRuntime, client: TcpStream) {
    let mut client = client;
    for _ in 0..600 {
        if client.write_all(b"x").is_err() {
            return;
        }
        thread::sleep(&host, Duration::from_millis(100));
    }
}

#[test]
fn a_client_that_ends_no_message_lets_others_in(rt: HostRuntime) {
    let (_server, [first, _second], mut conn) = meet_first_of_two(&rt, rt);
    let dripper = thread::spawn(&rt, move || drip(rt, first)).expect(&rt, "thread");
    let failed_ms = time_failure(&rt, rt, &mut conn);
    drop(conn);
    dripper.join(&rt);
    check_within(&rt, "no end", failed_ms, 9_900, 50_000);
}

#[test]
fn a_client_that_is_sent_something_is_not_silent(rt: HostRuntime) {
    let (_doors, _client, (_, _, mut conn)) = meet(&rt, rt, 2);
    for _ in 0..4 {
        check(&rt, "sent", conn.send(b"$"), Put::Whole);
        check(&rt, "idle", conn.receive(&mut [0; 16]), Received::Idle);
    }
    check_received(&rt, "silent", &mut conn, &[Received::Failed]);
}

// Connects a client that asks, and then sends nothing more.
fn ask_once(rt: &impl Abort, host: HostRuntime, server: SocketAddr) -> TcpStream {
    let mut client = connect(rt, host, server);
    client.write_all(b"ask").expect(rt, "request");
    client.shutdown(Shutdown::Write).expect(rt, "shutdown");
    client
}

#[test]
fn a_client_that_left_counts(rt: HostRuntime) {
    let Server {
        mut doors,
        rtsp,
        ..
    } = open_doors(&rt, rt, 60, 2);
    drop(connect(&rt, rt, rtsp));
    let _client = ask_once(&rt, rt, rtsp);
    let (_, _, mut conn) = next_client(&rt, &mut doors);
    check_received(&rt, "left", &mut conn, &[Received::End]);
    let (_, _, mut conn) = next_client(&rt, &mut doors);
    check_heard(&rt, "request", &mut conn, b"ask");
    check_received(&rt, "shut down", &mut conn, &[Received::End]);
    check_end(&rt, "after two clients", &mut doors);
}

// Writes a megabyte, and reads the reply.
fn reply_after_a_megabyte(client: TcpStream) -> bool {
    let mut client = client;
    let (piece, mut reply) = ([7u8; 4096], [0u8; 3]);
    for _ in 0..256 {
        if client.write_all(&piece).is_err() {
            return false;
        }
    }
    client.read_exact(&mut reply).is_ok() && reply == *b"413"
}

#[test]
fn a_client_that_still_sends_gets_its_last_reply(rt: HostRuntime) {
    let (mut doors, client, came) = meet(&rt, rt, 60);
    let (kind, peer, mut conn) = came;
    let asker = thread::spawn(&rt, move || reply_after_a_megabyte(client)).expect(&rt, "thread");
    check_received(&rt, "request", &mut conn, &[Received::Got(16)]);
    check(&rt, "reply", conn.send(b"413"), Put::Whole);
    doors.back(conn, kind, peer, ConnEnd::Done);
    check(&rt, "its reply", asker.join(&rt), true);
}

// Opens doors that end after one connection, and connects a client, which comes by them. Returns
// the count of their arrivals too.
fn meet_once(rt: &impl Abort, host: HostRuntime) -> (Arc<Arrivals>, RealDoors, TcpStream, Came) {
    let arrivals = no_arrivals(rt, host);
    let counted = Arc::try_clone(&arrivals).expect(rt, "another owner");
    let listeners = listen_with(rt, host, counted, Carried::Replies);
    let mut server = serve_at(rt, host, listeners, 60, 1);
    let client = connect(rt, host, server.rtsp);
    let came = next_client(rt, &mut server.doors);
    (arrivals, server.doors, client, came)
}

#[test]
fn pieces_and_the_end_of_doors_are_arrivals(rt: HostRuntime) {
    let (arrivals, mut doors, mut client, came) = meet_once(&rt, rt);
    let (kind, peer, mut conn) = came;
    for (name, before, after) in [("first", 0, 0), ("second", 0, 1)] {
        check(&rt, name, arrivals.count(), before);
        client.write_all(b"a").expect(&rt, "a byte");
        check_received(&rt, name, &mut conn, &[Received::Got(1)]);
        check(&rt, name, arrivals.count(), after);
    }
    doors.back(conn, kind, peer, ConnEnd::ReadFault);
    check(&rt, "back", (arrivals.count(), arrivals.ends()), (2, 0));
    check_end(&rt, "doors", &mut doors);
    check(&rt, "the end", (arrivals.count(), arrivals.ends()), (3, 1));
}

#[test]
fn a_fault_of_doors_ends_the_wait_of_a_pump(rt: HostRuntime) {
    let arrivals = no_arrivals(&rt, rt);
    let counted = Arc::try_clone(&arrivals).expect(&rt, "another owner");
    let listeners = listen_with(&rt, rt, counted, Carried::Replies);
    let listeners = Arc::new(rt.alloc(), listeners).expect(&rt, "out of memory");
    let shared = Arc::try_clone(&listeners).expect(&rt, "another owner");
    let mut doors = RealDoors::new(rt, start(&rt, rt.alloc()), shared, 60, 0);
    let begin = Instant::now(&rt).expect(&rt, "clock");
    listeners.shut_down();
    let (_, failed) = thread::join(
        &rt,
        || arrivals.wait(&rt, 0, Duration::from_secs(50)),
        || matches!(next_come(&mut doors), Door::Failed),
    );
    check(&rt, "a fault", (failed, arrivals.ends()), (true, 1));
    check_within(&rt, "wait", elapsed_ms(&rt, rt, &begin), 0, 45_000);
}

// Waits for up to 5 s for an arrival, and ends the client. Returns whether it came.
fn await_arrival(host: HostRuntime, arrivals: &Arrivals, client: TcpStream) -> bool {
    for _ in 0..500 {
        if arrivals.count() > 0 {
            break;
        }
        thread::sleep(&host, Duration::from_millis(10));
    }
    drop(client);
    arrivals.count() > 0
}

#[test]
fn events_before_a_send_that_waits_are_shown(rt: HostRuntime) {
    let (arrivals, _doors, mut client, (_, _, mut conn)) = meet_once(&rt, rt);
    client.write_all(b"ask").expect(&rt, "request");
    check_heard(&rt, "request", &mut conn, b"ask");
    let text = vec![in rt.alloc(); 7; 16777216].expect(&rt, "out of memory");
    let (put, came) = thread::join(
        &rt,
        || conn.send(&text),
        || await_arrival(rt, &arrivals, client),
    );
    check(&rt, "sent", (put, came), (Put::Failed, true));
}

// Returns the listener that can't be bound.
fn bind_fault(rt: &impl Abort, host: HostRuntime, ip: u32, http_port: u16) -> &'static str {
    let arrivals = no_arrivals(rt, host);
    match Listeners::bind(&host, ip, 0, http_port, 8, arrivals, Carried::Replies) {
        Ok(_) => "none",
        Err(BindFault::Rtsp(_)) => "RTSP",
        Err(BindFault::Http(_)) => "HTTP",
    }
}

#[test]
fn a_port_in_use_is_refused(rt: HostRuntime) {
    let listeners = listen(&rt, rt);
    let used = listeners.rtsp_port().expect(&rt, "port");
    for (name, ip, http_port, fault) in [
        ("a port in use", LOCALHOST, used, "HTTP"),
        ("another host's address", 0xc000_0201, 0, "RTSP"),
    ] {
        check(&rt, name, bind_fault(&rt, rt, ip, http_port), fault);
    }
}
