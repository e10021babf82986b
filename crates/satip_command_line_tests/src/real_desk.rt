//! The command `serve` over loopback, and what the real desk can't have.

ghost use Rattle.std.specs.Prelude.{◌≡◌, None};
ghost use Rattle.satip_desk.specs.Handed.{nothing_handed};

use crate::checks::{check, given};
use satip_base::Text;
use satip_desk::{Desk, JobSink};
use satip_fixtures::texts::{OPTIONS, OPTIONS_REPLY};
use satip_memory::{MemorySink, MemorySource};
use satip_memory_desk::texts_of;
use satip_program::satip;
use satip_real_desk::{Carried, RealDesk};
use std::alloc::Global;
use std::io::{Read, Write};
use std::net::{Ipv4Addr, SocketAddr, TcpStream};
use std::process::Abort;
use std::sync::Wait;
use std::thread::Threads;
use std::time::Duration;
use std::{fs, thread};

// A serve by the real desk, and its result. A configuration comes back, and no kits do.
#[derive(Clone, Copy)]
struct Row {
    // The name of the file with the configuration.
    name: &'static str,
    text: &'static [u8],
    status: u8,
    // Whether the jobs began.
    left: bool,
    errors: &'static [u8],
}

// The words of a run, and what it reads and writes.
#[derive(Drop)]
struct Streams {
    words: Vec<Text>,
    input: MemorySource,
    output: MemorySink,
    errors: MemorySink,
}

// Returns the streams of a serve whose workers end after one connection.
fn streams_of(rt: &impl Abort, alloc: Global, name: &str) -> Streams {
    Streams {
        words: given(rt, texts_of(alloc, &["serve", name, "1"])),
        input: MemorySource::make(alloc, b"", &[], &[]).expect(rt, "out of memory"),
        output: MemorySink::make(alloc, &[], 0).expect(rt, "out of memory"),
        errors: MemorySink::make(alloc, &[], 0).expect(rt, "out of memory"),
    }
}

// Runs the program over these streams. Returns the status, and whether a configuration, the result
// of jobs and kits came back.
fn end_of<R: Threads + Wait + Sync, K: Desk>(
    rt: &R,
    alloc: Global,
    streams: &mut Streams,
    desk: &mut K,
) -> (u8, bool, bool, bool)
    requires new { (K.desk desk.old).given ≡ None }
    requires client { (K.desk desk.old).handed ≡ nothing_handed }
{
    let ended = satip(
        rt,
        alloc,
        &streams.words,
        &mut streams.input,
        &mut streams.output,
        &mut streams.errors,
        desk,
    );
    (
        ended.status,
        ended.config.is_some(),
        ended.last.is_some(),
        ended.unused.is_some(),
    )
}

// Serves by a row, and asserts the result of the row.
fn check_serve<R: Threads + Wait + Sync + Abort + Copy + Drop + Send>(
    host: HostRuntime,
    rt: R,
    row: &Row,
) {
    let mut streams = streams_of(&rt, host.alloc(), row.name);
    fs::write(&host, row.name, row.text).expect(&rt, "file");
    let mut desk = RealDesk::new(host, rt, Carried::Replies);
    let end = end_of(&rt, host.alloc(), &mut streams, &mut desk);
    fs::remove_file(&host, row.name).expect(&rt, "file");
    check(&rt, row.name, end, (row.status, true, row.left, false));
    let got = (streams.output.sent(), streams.errors.sent());
    check(&rt, row.name, got, (b"".as_slice(), row.errors));
}

// Tells whether the one reply to one request came, and then the end, once the server listens.
fn is_answered(rt: HostRuntime, port: u16) -> bool {
    let at = SocketAddr::from((Ipv4Addr::LOCALHOST, port));
    for _ in 0..500 {
        match TcpStream::connect(&rt, at) {
            Ok(stream) => return asks(stream),
            Err(_) => thread::sleep(&rt, Duration::from_millis(10)),
        }
    }
    false
}

fn asks(mut stream: TcpStream) -> bool {
    let mut reply = [0u8; 128];
    let reply = &mut reply[..OPTIONS_REPLY.len()];
    stream
        .set_read_timeout(Some(Duration::from_secs(20)))
        .is_ok()
        && stream.write_all(OPTIONS).is_ok()
        && stream.read_exact(reply).is_ok()
        && *reply == *OPTIONS_REPLY
}

const SERVED: &Row = &Row {
    name: "loopback.toml",
    text: b"address = \"127.0.0.1\"\nrtsp_port = 18554\nhttp_port = 18875\nworkers = 1\n\
[[frontend]]\nsources = [1]\nsystems = [\"dvbs\"]\n",
    status: 0,
    left: true,
    errors: b"",
};

// Serves by a row, and asserts that a request is answered.
fn check_answered<R: Threads + Wait + Sync + Abort + Copy + Drop + Send>(
    host: HostRuntime,
    rt: R,
    row: &Row,
    port: u16,
) {
    let client = thread::spawn(&rt, move || is_answered(host, port)).expect(&rt, "thread");
    check_serve(host, rt, row);
    check(&rt, "answered", client.join(&rt), true);
}

#[test]
fn a_request_is_answered_over_loopback(rt: HostRuntime) {
    check_answered(rt, rt, SERVED, 18554);
}

const RECORDING: &Row = &Row {
    name: "recording.toml",
    text: b"address = \"127.0.0.1\"\nrtsp_port = 18556\nhttp_port = 18877\nworkers = 1\n\
[[frontend]]\nsources = [1]\nsystems = [\"dvbs\"]\n\
[[mux]]\nsrc = 1\nfreq = \"11494\"\npol = \"h\"\n\
msys = \"dvbs\"\nsr = 22000\nfile = \"no/such/recording.ts\"\n",
    status: 0,
    left: true,
    errors: b"",
};

#[test]
fn a_server_starts_without_a_recording(rt: HostRuntime) {
    check_answered(rt, rt, RECORDING, 18556);
}

// A serve to which the desk gives no kits.
const WITHOUT_KITS: Row = Row {
    name: "",
    text: b"",
    status: 7,
    left: false,
    errors: b"doors fault\n",
};

// The address is one of those for documentation, which no machine has.
const ADDRESS: &Row = &Row {
    name: "address.toml",
    text: b"address = \"192.0.2.1\"\nrtsp_port = 18558\nhttp_port = 18879\n\
[[frontend]]\nsources = [1]\nsystems = [\"dvbs\"]\n",
    ..WITHOUT_KITS
};

#[test]
fn an_address_that_is_not_ours_is_a_fault(rt: HostRuntime) {
    check_serve(rt, rt, ADDRESS);
}

// Both listeners can't have one port.
const PORT: &Row = &Row {
    name: "port.toml",
    text: b"address = \"127.0.0.1\"\nrtsp_port = 18560\nhttp_port = 18560\n\
[[frontend]]\nsources = [1]\nsystems = [\"dvbs\"]\n",
    ..WITHOUT_KITS
};

#[test]
fn a_port_in_use_is_a_fault(rt: HostRuntime) {
    check_serve(rt, rt, PORT);
}

// Puts lines on the journals of two jobs, in turn.
fn put_lines<K: Desk>(rt: &impl Abort, desk: &mut K) {
    let mut first = desk.journal(7).expect(rt, "journal");
    let mut second = desk.journal(12).expect(rt, "journal");
    first.put(b"start 0\n");
    second.put(b"entry 1 12 08\n");
    first.put(b"entry 0 7 08\n");
}

// Asserts the text of a file, and removes it.
fn check_file(rt: &impl Abort, host: HostRuntime, name: &str, text: &[u8]) {
    let found = fs::read(&host, name).expect(rt, "file");
    fs::remove_file(&host, name).expect(rt, "file");
    check(rt, name, found.as_slice(), text);
}

// What is put on a journal is in its job's file at once; what that had before is gone.
#[test]
fn a_journal_is_a_file(rt: HostRuntime) {
    let earlier: &[u8] = b"of an earlier server, and longer than what comes";
    fs::write(&rt, "journal.7", earlier).expect(&rt, "file");
    let mut desk = RealDesk::new(rt, rt, Carried::Replies);
    put_lines(&rt, &mut desk);
    check_file(&rt, rt, "journal.7", b"start 0\nentry 0 7 08\n");
    check_file(&rt, rt, "journal.12", b"entry 1 12 08\n");
}
