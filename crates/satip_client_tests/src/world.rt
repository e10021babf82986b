//! Each version over memory: what it gives, keeps and fails at.

ghost use Rattle.std.specs.Prelude.{◌≡◌, false};

use satip_base::{Address, Peer, Put, Source, Taken};
use satip_memory::*;
use satip_world::*;
use std::alloc::Global;
use std::test::Fail;

const CLIENT: Peer = Peer { ip: 0x7f00_0001 };

// What a receive gives: at most so many bytes, which are handed back.
fn receive(alloc: Global, conn: &mut MemoryConn, most: usize) -> Result<(Received, Vec<u8>), Fail> {
    let mut buf = vec![in alloc; 0; most.max(1)]?;
    let answer = conn.receive(&mut buf);
    let count = match answer {
        Received::Got(count) => count,
        _ => 0,
    };
    buf.truncate(count);
    Ok((answer, buf))
}

fn post<O: Outlet>(outlet: &mut O, port: u16, bytes: &[u8]) -> Put
    requires free { (O.outbox outlet.old).held ≡ false }
    ensures free { (O.outbox outlet.new).held ≡ false }
{
    outlet.lock();
    let put = outlet.send(Address { ip: 1, port }, bytes);
    outlet.unlock();
    put
}

#[test]
fn a_connection_gives_its_pieces_and_then_ends(rt: HostRuntime) -> Result<(), Fail> {
    let pieces = [b"abc".as_slice(), b"".as_slice(), b"d".as_slice()];
    let mut conn = MemoryConn::make(rt.alloc(), &pieces, &[2], &[], 0)?;
    for (most, wanted, bytes) in [
        (2, Received::Got(2), b"ab".as_slice()),
        (2, Received::Failed, b""),
        (2, Received::Got(1), b"c"),
        (2, Received::Idle, b""),
        (9, Received::Got(1), b"d"),
        (9, Received::End, b""),
        (9, Received::End, b""),
    ] {
        let (answer, received) = receive(rt.alloc(), &mut conn, most)?;
        assert_eq!(rt; (answer, received.as_slice()), (wanted, bytes));
    }
    Ok(())
}

#[test]
fn a_failing_send_passes_some_bytes(rt: HostRuntime) -> Result<(), Fail> {
    let mut conn = MemoryConn::make(rt.alloc(), &[], &[], &[2], 3)?;
    for (bytes, put) in [
        (b"one ".as_slice(), Put::Whole),
        (b"two ", Put::Failed),
        (b"three", Put::Whole),
    ] {
        assert_eq!(rt; conn.send(bytes), put);
    }
    assert_eq!(rt; conn.sent(), b"one twothree".as_slice());
    Ok(())
}

// What an outlet answers whose second send fails, and how many datagrams it keeps.
fn posted(alloc: Global) -> Result<(MemoryOutlet, [Put; 3]), Fail> {
    let mut outlet = MemoryOutlet::make(alloc, &[2])?;
    let puts = [
        post(&mut outlet, 5, b"abc"),
        post(&mut outlet, 6, b"def"),
        post(&mut outlet, 7, b""),
    ];
    Ok((outlet, puts))
}

#[test]
fn an_outlet_keeps_what_it_sends(rt: HostRuntime) -> Result<(), Fail> {
    let (outlet, puts) = posted(rt.alloc())?;
    assert!(rt; puts == [Put::Whole, Put::Failed, Put::Whole]);
    assert_eq!(rt; outlet.count(), 2);
    Ok(())
}

#[test]
fn an_outlet_shows_its_datagrams(rt: HostRuntime) -> Result<(), Fail> {
    let (outlet, _) = posted(rt.alloc())?;
    let to = Address { ip: 1, port: 5 };
    assert_eq!(rt; outlet.datagram(0), Some((to, b"abc".as_slice())));
    assert!(rt; outlet.datagram(2).is_none());
    Ok(())
}

// A store with a recording of two multiplexes, the takes of the second in other sizes and failing.
fn two_recordings(
    alloc: Global,
    starts: &[u64],
    takes: &[usize],
    failing: &[u64],
) -> Result<MemoryStore, Fail> {
    let mut store = MemoryStore::make(alloc, starts)?;
    store.add(1, b"first", &[], &[])?;
    store.add(2, b"second", takes, failing)?;
    Ok(store)
}

// Starts the recording of the second multiplex.
fn start_second(store: &mut MemoryStore) -> Result<MemoryRecording, Fail> {
    Ok(store.start(2).ok().ok_or("no recording")?)
}

#[test]
fn a_store_starts_the_recording_of_a_multiplex(rt: HostRuntime) -> Result<(), Fail> {
    let mut store = two_recordings(rt.alloc(), &[2], &[4], &[2])?;
    let mut from = start_second(&mut store)?;
    for (wanted, bytes) in [
        (Taken::Got(4), b"seco".as_slice()),
        (Taken::Failed, b""),
        (Taken::Got(2), b"nd"),
        (Taken::End, b""),
    ] {
        let mut buf = [0; 9];
        assert_eq!(rt; from.take(&mut buf), wanted);
        assert!(rt; buf.starts_with(bytes));
    }
    Ok(())
}

#[test]
fn a_recording_is_out_until_it_is_back(rt: HostRuntime) -> Result<(), Fail> {
    let mut store = two_recordings(rt.alloc(), &[2], &[4], &[2])?;
    let from = start_second(&mut store)?;
    assert_eq!(rt; store.lent(), 1);
    store.back(from);
    assert_eq!(rt; store.lent(), 0);
    Ok(())
}

#[test]
fn a_start_that_fails_lends_nothing(rt: HostRuntime) -> Result<(), Fail> {
    let mut store = two_recordings(rt.alloc(), &[2], &[4], &[2])?;
    let from = start_second(&mut store)?;
    store.back(from);
    for mux in [1, 3] {
        assert!(rt; store.start(mux).is_err(), "at {mux}");
    }
    assert_eq!(rt; store.lent(), 0);
    Ok(())
}

// The recordings of both multiplexes, and their store.
fn both_started(alloc: Global) -> Result<(MemoryStore, Vec<MemoryRecording>), Fail> {
    let mut store = two_recordings(alloc, &[], &[], &[])?;
    let mut out = Vec::new(alloc);
    for mux in [1, 2] {
        out.push(store.start(mux).ok().ok_or("no recording")?)?;
    }
    Ok((store, out))
}

#[test]
fn a_store_counts_the_sources_that_are_out(rt: HostRuntime) -> Result<(), Fail> {
    let (mut store, mut out) = both_started(rt.alloc())?;
    assert_eq!(rt; store.lent(), 2);
    for lent in [1, 0] {
        store.back(out.pop().ok_or("a source")?);
        assert_eq!(rt; store.lent(), lent);
    }
    assert_eq!(rt; store.peak(), 2);
    Ok(())
}

#[test]
fn a_clock_shows_its_moments(rt: HostRuntime) -> Result<(), Fail> {
    let mut clock = MemoryClock::make(rt.alloc(), &[7, 5])?;
    for wanted in [7, 5, 0] {
        assert_eq!(rt; clock.now(), wanted);
    }
    Ok(())
}

#[test]
fn a_pacer_counts_its_pauses(rt: HostRuntime) {
    let mut pacer = MemoryPacer::new();
    pacer.pause();
    pacer.pause();
    assert_eq!(rt; pacer.pauses(), 2);
}

// What a call of `next` came to: R or H for a connection, and else I, E or F. What came is handed
// back.
fn turn(doors: &mut MemoryDoors) -> u8 {
    match doors.next() {
        Door::Came { kind, peer, conn } => {
            doors.back(conn, kind, peer, ConnEnd::Done);
            match kind {
                DoorKind::Rtsp => b'R',
                DoorKind::Http => b'H',
            }
        }
        Door::Idle => b'I',
        Door::End => b'E',
        Door::Failed => b'F',
    }
}

// Doors by which connections of these kinds come.
fn doors_of(
    alloc: Global,
    limit: u32,
    idle: &[u64],
    failing: &[u64],
    kinds: &[DoorKind],
) -> Result<MemoryDoors, Fail> {
    let mut doors = MemoryDoors::make(alloc, limit, idle, failing)?;
    for kind in kinds {
        doors.add(*kind, CLIENT, MemoryConn::make(alloc, &[], &[], &[], 0)?)?;
    }
    Ok(doors)
}

#[test]
fn doors_end_at_their_limit(rt: HostRuntime) -> Result<(), Fail> {
    let kinds = [DoorKind::Rtsp, DoorKind::Http, DoorKind::Rtsp];
    let mut doors = doors_of(rt.alloc(), 2, &[2], &[4], &kinds)?;
    for wanted in *b"RIHFEE" {
        assert_eq!(rt; turn(&mut doors), wanted);
    }
    assert_eq!(rt; doors.returned().len(), 2);
    Ok(())
}

#[test]
fn doors_without_a_limit_end_with_their_connections(rt: HostRuntime) -> Result<(), Fail> {
    let mut doors = doors_of(rt.alloc(), 0, &[], &[], &[DoorKind::Http, DoorKind::Rtsp])?;
    for wanted in *b"HRE" {
        assert_eq!(rt; turn(&mut doors), wanted);
    }
    let returned = doors.returned();
    assert_eq!(rt; returned.len(), 2);
    assert!(rt; returned[1].kind == DoorKind::Rtsp && returned[1].peer == CLIENT);
    Ok(())
}
