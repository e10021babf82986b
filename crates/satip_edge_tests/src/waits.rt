//! How long connections wait for what doesn't come.

use crate::checks::{check, check_within};
use crate::doors::{elapsed_ms, meet, meet_at};
use crate::sockets::{check_heard, listen_with, no_arrivals};
use satip_base::Put;
use satip_real::{Carried, RealConn};
use satip_world::{Conn, ConnEnd, Doors, Received};
use std::io::{Read, Write};
use std::net::{Shutdown, TcpStream};
use std::process::Abort;
use std::thread;
use std::time::{Duration, Instant};

// Returns the milliseconds that this number of idle receives take.
fn time_idles(rt: &impl Abort, host: HostRuntime, conn: &mut RealConn, count: u32) -> u64 {
    let begin = Instant::now(&host).expect(rt, "clock");
    for _ in 0..count {
        check(rt, "silent", conn.receive(&mut [0; 16]), Received::Idle);
    }
    elapsed_ms(rt, host, &begin)
}

// Lets 50 ms pass, and sends a byte.
fn send_late(host: HostRuntime, client: &mut TcpStream) -> bool {
    thread::sleep(&host, Duration::from_millis(50));
    client.write_all(b"a").is_ok()
}

#[test]
fn a_client_that_asks_for_nothing_is_waited_for_longer(rt: HostRuntime) {
    let (mut doors, mut client, (kind, peer, mut conn)) = meet(&rt, rt, 60);
    let idle_ms = time_idles(&rt, rt, &mut conn, 1);
    check_within(&rt, "idle", idle_ms, 970, 5_000);
    let begin = Instant::now(&rt).expect(&rt, "clock");
    let (sent, received) = thread::join(
        &rt,
        || send_late(rt, &mut client),
        || conn.receive(&mut [0; 16]),
    );
    check(&rt, "byte", (sent, received), (true, Received::Got(1)));
    check_within(&rt, "byte", elapsed_ms(&rt, rt, &begin), 49, 950);
    doors.back(conn, kind, peer, ConnEnd::ReadFault);
}

// Sends 160000 bytes, and reads them.
fn pass_much(rt: &impl Abort, conn: &mut RealConn, client: &mut TcpStream) {
    let mut piece = [0; 8000];
    for _ in 0..20 {
        check(rt, "frames", conn.send(&[7; 8000]), Put::Whole);
        client.read_exact(&mut piece).expect(rt, "frames");
    }
}

// Returns the least milliseconds of ten idle receives, each after much was sent or not.
fn least_idle(
    rt: &impl Abort,
    host: HostRuntime,
    conn: &mut RealConn,
    client: &mut TcpStream,
    sends: bool,
) -> u64 {
    let mut least_ms = u64::MAX;
    for _ in 0..10 {
        if sends {
            pass_much(rt, conn, client);
        }
        least_ms = least_ms.min(time_idles(rt, host, conn, 1));
    }
    least_ms
}

#[test]
fn a_client_with_a_lane_is_waited_for_shortly(rt: HostRuntime) {
    let listeners = listen_with(&rt, rt, no_arrivals(&rt, rt), Carried::Frames);
    let (_doors, mut client, (_, _, mut conn)) = meet_at(&rt, rt, listeners, 60);
    client.write_all(b"a").expect(&rt, "a byte");
    check_heard(&rt, "a byte", &mut conn, b"a");
    check(&rt, "reply", conn.send(b"a"), Put::Whole);
    // four short waits, and then those of a client to which no frames go
    let quiet_ms = time_idles(&rt, rt, &mut conn, 50);
    check_within(&rt, "quiet", quiet_ms, 1_600, 40_000);
    client.read_exact(&mut [0]).expect(&rt, "reply");
    let short_ms = least_idle(&rt, rt, &mut conn, &mut client, false);
    check_within(&rt, "short", short_ms, 34, 200);
    let shorter_ms = least_idle(&rt, rt, &mut conn, &mut client, true);
    check_within(&rt, "after much", shorter_ms, 9, 34);
}

#[test]
fn input_that_a_read_leaves_is_read_next(rt: HostRuntime) {
    let (_doors, mut client, (_, _, mut conn)) = meet(&rt, rt, 60);
    check(&rt, "before", conn.receive(&mut [0; 16]), Received::Idle);
    client.write_all(&[7; 40]).expect(&rt, "bytes");
    for count in [16, 16, 8] {
        let got = conn.receive(&mut [0; 16]);
        check(&rt, "piece", got, Received::Got(count));
    }
    check(&rt, "after", conn.receive(&mut [0; 16]), Received::Idle);
    client.write_all(b"a").expect(&rt, "a byte");
    check(&rt, "more", conn.receive(&mut [0; 16]), Received::Got(1));
}

// The bytes of a reply for which a send has to wait.
const REPLY: usize = 16777216;

// Asks while a send waits, and ends its side or not. Then reads the reply. Returns the client, and
// whether the reply is whole.
fn ask_and_read(host: HostRuntime, client: TcpStream, ends: bool) -> (TcpStream, bool) {
    let mut client = client;
    thread::sleep(&host, Duration::from_millis(300));
    let mut whole = client.write_all(b"ask").is_ok();
    if ends {
        whole = client.shutdown(Shutdown::Write).is_ok() && whole;
    }
    let mut buf = [0; 4096];
    for _ in 0..REPLY / 4096 {
        whole = client.read_exact(&mut buf).is_ok() && whole;
    }
    (client, whole)
}

#[test]
fn input_that_comes_while_a_send_waits_is_heard(rt: HostRuntime) {
    let text = vec![in rt.alloc(); 7; REPLY].expect(&rt, "out of memory");
    for (name, ends, last) in [
        ("ends", true, Received::End),
        ("goes on", false, Received::Idle),
    ] {
        let (_doors, client, (_, _, mut conn)) = meet(&rt, rt, 60);
        check(&rt, name, conn.receive(&mut [0; 16]), Received::Idle);
        let (put, (client, whole)) = thread::join(
            &rt,
            || conn.send(&text),
            || ask_and_read(rt, client, ends),
        );
        check(&rt, name, (put, whole), (Put::Whole, true));
        check(&rt, name, conn.receive(&mut [0; 16]), Received::Got(3));
        check(&rt, name, conn.receive(&mut [0; 16]), last);
        drop(client);
    }
}
