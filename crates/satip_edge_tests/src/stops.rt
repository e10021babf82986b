//! Servers that are asked to end.

use crate::checks::check;
use crate::doors::{Came, next_client, next_come, start};
use crate::sockets::{
    LOCALHOST, check_heard, check_received, connect, listen, no_arrivals, socket_addr,
};
use satip_base::Text;
use satip_host::Stop;
use satip_real::{Carried, Listeners, RealDoors};
use satip_world::{Conn, ConnEnd, Door, Doors, Received};
use std::io::Write;
use std::net::TcpStream;
use std::process::Abort;
use std::sync::Arc;
use std::{fs, process};

// The file that asks a server to end. It is removed when it is dropped.
struct StopFile {
    host: HostRuntime,
    path: String,
}

impl Drop for StopFile {
    fn drop(self) {
        let StopFile { host, path } = self;
        let _ = fs::remove_file(&host, path.as_str());
    }
}

impl StopFile {
    fn new(rt: &impl Abort, host: HostRuntime, word: &str) -> StopFile {
        let id = process::id(host.process());
        let path = format!(in host.alloc(); "/tmp/satip_stop_{word}_{id}").expect(rt, "path");
        StopFile { host, path }
    }

    fn stop(&self, rt: &impl Abort) -> Stop {
        let name = Text::of(self.host.alloc(), self.path.as_str()).expect(rt, "out of memory");
        Stop::by_file(self.host, name)
    }

    fn write(&self, rt: &impl Abort, text: &str) {
        fs::write(&self.host, self.path.as_str(), text).expect(rt, "file");
    }
}

// A server that a file asks to end, with one client.
#[derive(Drop)]
struct Server {
    doors: RealDoors,
    ports: (u16, u16),
    client: TcpStream,
    came: Came,
}

fn open(rt: &impl Abort, host: HostRuntime, file: &StopFile) -> Server {
    let listeners = listen(rt, host).ending_by(file.stop(rt));
    let rtsp = listeners.rtsp_port().expect(rt, "port");
    let http = listeners.http_port().expect(rt, "port");
    let listeners = Arc::new(host.alloc(), listeners).expect(rt, "out of memory");
    let mut doors = RealDoors::new(host, start(rt, host.alloc()), listeners, 60, 0);
    let client = connect(rt, host, socket_addr(1, rtsp));
    let came = next_client(rt, &mut doors);
    Server {
        doors,
        ports: (rtsp, http),
        client,
        came,
    }
}

// Asserts that the doors end, though they have no limit, and that both ports are free.
fn check_end(rt: &impl Abort, host: HostRuntime, doors: &mut RealDoors, ports: (u16, u16)) {
    check(rt, "end", matches!(next_come(doors), Door::End), true);
    let arrivals = no_arrivals(rt, host);
    let (rtsp, http) = ports;
    let successor = Listeners::bind(&host, LOCALHOST, rtsp, http, 8, arrivals, Carried::Replies);
    check(rt, "the ports are free", successor.is_ok(), true);
}

#[test]
fn doors_end_and_their_connections_go_on(rt: HostRuntime) {
    let file = StopFile::new(&rt, rt, "soft");
    let Server {
        mut doors,
        ports,
        mut client,
        came,
    } = open(&rt, rt, &file);
    let (kind, peer, mut conn) = came;
    check(&rt, "no file", matches!(doors.next(), Door::Idle), true);
    file.write(&rt, "");
    check_end(&rt, rt, &mut doors, ports);
    client.write_all(b"ask").expect(&rt, "request");
    check_heard(&rt, "request", &mut conn, b"ask");
    check(&rt, "no bytes", conn.receive(&mut [0; 16]), Received::Idle);
    doors.back(conn, kind, peer, ConnEnd::Done);
}

#[test]
fn connections_end_when_their_time_is_over(rt: HostRuntime) {
    let file = StopFile::new(&rt, rt, "hard");
    let Server {
        mut doors,
        ports,
        client,
        came,
    } = open(&rt, rt, &file);
    let (kind, peer, mut conn) = came;
    file.write(&rt, "0\n");
    check_received(&rt, "over", &mut conn, &[Received::End; 2]);
    drop(client);
    doors.back(conn, kind, peer, ConnEnd::Done);
    check_end(&rt, rt, &mut doors, ports);
}

#[test]
fn a_server_is_asked_once(rt: HostRuntime) {
    let file = StopFile::new(&rt, rt, "once");
    let stop = file.stop(&rt);
    check(&rt, "no file", stop.is_there(), false);
    file.write(&rt, "soon");
    check(&rt, "a file", stop.is_asked(), true);
    check(&rt, "no number", stop.is_over(), false);
    drop(file);
    check(
        &rt,
        "removed",
        (stop.is_there(), stop.is_asked()),
        (false, true),
    );
}
