//! Sources, sinks and inlets over memory.

use satip_base::{Put, Sink, Source, Taken};
use satip_memory::{MemoryInlet, MemorySink, MemorySource};
use satip_world::{Inlet, Received};
use std::test::Fail;

// What a take gives, and the three bytes that are there behind it.
fn take(source: &mut MemorySource) -> (Taken, [u8; 3]) {
    let mut buf = [0; 3];
    let taken = source.take(&mut buf);
    (taken, buf)
}

#[test]
fn a_memory_source_gives_pieces_and_fails_when_told(rt: HostRuntime) -> Result<(), Fail> {
    let mut source = MemorySource::make(rt.alloc(), b"abcdef", &[2], &[2])?;
    for wanted in [
        (Taken::Got(2), *b"ab\0"),
        (Taken::Failed, [0; 3]),
        (Taken::Got(3), *b"cde"),
        (Taken::Got(1), *b"f\0\0"),
        (Taken::End, [0; 3]),
        (Taken::End, [0; 3]),
    ] {
        assert_eq!(rt; take(&mut source), wanted);
    }
    Ok(())
}

#[test]
fn a_memory_sink_keeps_what_is_put_and_fails_when_told(rt: HostRuntime) -> Result<(), Fail> {
    let mut sink = MemorySink::make(rt.alloc(), &[2], 1)?;
    for (bytes, put) in [
        (b"ab".as_slice(), Put::Whole),
        (b"cd", Put::Failed),
        (b"ef", Put::Whole),
    ] {
        assert_eq!(rt; sink.put(bytes), put);
    }
    assert_eq!(rt; sink.sent(), b"abcef".as_slice());
    Ok(())
}

// What a receive gives, and the first three and the last byte of 2048.
fn receive(inlet: &mut MemoryInlet) -> (Received, [u8; 3], u8) {
    let mut buf = [0; 2048];
    let received = inlet.receive(&mut buf);
    (received, [buf[0], buf[1], buf[2]], buf[2047])
}

#[test]
fn datagrams_come_in_order_and_then_none(rt: HostRuntime) -> Result<(), Fail> {
    let long = [7; 2049];
    let mut inlet = MemoryInlet::make(rt.alloc(), 5000, &[b"abc", b"", &long], &[2], &[4])?;
    assert_eq!(rt; inlet.port(), 5000);
    for wanted in [
        (Received::Got(3), *b"abc", 0),
        (Received::Idle, [0; 3], 0),
        (Received::Got(0), [0; 3], 0),
        (Received::Failed, [0; 3], 0),
        (Received::Got(2048), [7; 3], 7),
        (Received::Idle, [0; 3], 0),
    ] {
        assert_eq!(rt; receive(&mut inlet), wanted);
    }
    Ok(())
}
