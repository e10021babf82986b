//! Whole recordings over memory.
use satip_base::Want;
use satip_client::RecordEnd;
use satip_fixtures::recordings::{ACCEPTED, ADDRESS, GRANTED, HEAD, OPENED, QUERY, datagram};
use satip_fixtures::texts::joined;
use satip_memory::{MemoryClock, MemoryConn, MemoryInlet, MemorySink};
use satip_recorder::{Recorded, Wish, record_by};
use std::alloc::Global;
use std::test::Fail;

// Which call of a device fails, from 1; 0 is none. `idle` is a call of the inlet that finds
// nothing.
#[derive(Clone, Copy)]
struct Troubles {
    idle: u64,
    send: u64,
    inlet: u64,
    errors: u64,
}

const NONE: Troubles = Troubles {
    idle: 0,
    send: 0,
    inlet: 0,
    errors: 0,
};

// How a recording ended, what was sent on its connection, written, and told.
#[derive(Drop)]
struct Played {
    recorded: Recorded<MemoryConn, MemoryInlet, MemoryClock>,
    output: MemorySink,
    errors: MemorySink,
}

impl Played {
    fn end(&self) -> RecordEnd {
        self.recorded.end
    }

    fn sent(&self) -> &[u8] {
        self.recorded.wire.sent()
    }

    fn written(&self) -> &[u8] {
        self.output.sent()
    }

    fn told(&self) -> &[u8] {
        self.errors.sent()
    }
}

// What a recording is made over, where it is written, and where it is told of.
#[derive(Drop)]
struct Devices {
    wire: MemoryConn,
    inlet: MemoryInlet,
    moment: MemoryClock,
    output: MemorySink,
    errors: MemorySink,
}

fn memory_devices(
    alloc: Global,
    replies: &[&[u8]],
    datagrams: &[&[u8]],
    moments: &[u64],
    troubles: Troubles,
) -> Result<Devices, Want> {
    let (idle, failing) = ([troubles.idle], [troubles.inlet]);
    Ok(Devices {
        wire: MemoryConn::make(alloc, replies, &[], &[troubles.send], 5)?,
        inlet: MemoryInlet::make(alloc, 5000, datagrams, &idle, &failing)?,
        moment: MemoryClock::make(alloc, moments)?,
        output: MemorySink::make(alloc, &[], 0)?,
        errors: MemorySink::make(alloc, &[troubles.errors], 3)?,
    })
}

fn play(alloc: Global, devices: Devices, count: u32) -> Played {
    let Devices {
        wire,
        inlet,
        moment,
        mut output,
        mut errors,
    } = devices;
    let wish = Wish {
        address: ADDRESS.as_bytes(),
        query: QUERY.as_bytes(),
        count: count.clamp(1, 1000000),
    };
    let recorded = record_by(alloc, wire, inlet, moment, &wish, &mut output, &mut errors);
    Played {
        recorded,
        output,
        errors,
    }
}

// What comes to the inlet: the datagram of a number, or another.
#[derive(Clone, Copy)]
enum Came {
    Data(u16),
    Other(&'static [u8]),
}

// A recording, and what it is to come to: its end, what was sent on its connection, the beginnings
// of the packets of which datagrams were written, and what was told. None isn't looked at.
#[derive(Clone, Copy)]
struct Row {
    name: &'static str,
    replies: &'static [&'static [u8]],
    came: &'static [Came],
    moments: &'static [u64],
    troubles: Troubles,
    count: u32,
    end: RecordEnd,
    sent: Option<&'static [&'static [u8]]>,
    written: Option<&'static [(u16, usize)]>,
    told: Option<&'static [u8]>,
}

const USUAL: Row = Row {
    name: "",
    replies: &[GRANTED, ACCEPTED],
    came: &[],
    moments: &[5, 1004, 1005, 1006],
    troubles: NONE,
    count: 1,
    end: RecordEnd::Done,
    sent: None,
    written: None,
    told: None,
};

// The first request that keeps a session alive, and the last request after it.
const OPTIONS: &[u8] =
    b"OPTIONS rtsp://127.0.0.1:18554/ RTSP/1.0\r\nCSeq: 3\r\nSession: 1a\r\n\r\n";

const TEARDOWN: &[u8] =
    b"TEARDOWN rtsp://127.0.0.1:18554/stream=7 RTSP/1.0\r\nCSeq: 4\r\nSession: 1a\r\n\r\n";

const ROWS: &[Row] = &[
    Row {
        name: "a gap is told once it is passed",
        came: &[
            Came::Data(10),
            Came::Data(75),
            Came::Data(11),
            Came::Data(12),
        ],
        count: 6,
        written: Some(&[(10, 564), (12, 564)]),
        told: Some(b"gap 11 1\n"),
        ..USUAL
    },
    Row {
        name: "repeated and late datagrams are put in order",
        came: &[
            Came::Data(65535),
            Came::Data(65535),
            Came::Data(1),
            Came::Other(b"no RTP"),
            Came::Data(0),
            Came::Data(0),
        ],
        count: 8,
        written: Some(&[(65535, 564), (0, 564), (1, 376)]),
        told: Some(b""),
        ..USUAL
    },
    Row {
        name: "half of the timeout brings OPTIONS",
        came: &[Came::Other(b"no RTP"), Came::Data(9)],
        troubles: Troubles { idle: 1, ..NONE },
        sent: Some(&[OPENED, OPTIONS, TEARDOWN]),
        ..USUAL
    },
    Row {
        name: "the clock is read before a receive behind an idle one",
        came: &[Came::Data(9)],
        moments: &[5, 1004, 1005],
        troubles: Troubles { idle: 1, ..NONE },
        sent: Some(&[OPENED, OPTIONS, TEARDOWN]),
        ..USUAL
    },
    Row {
        name: "OPTIONS is sent before a receive that fails",
        moments: &[5, 1005],
        troubles: Troubles { inlet: 1, ..NONE },
        end: RecordEnd::PeerFault,
        sent: Some(&[OPENED, OPTIONS]),
        ..USUAL
    },
    Row {
        name: "OPTIONS that fails ends it",
        moments: &[5, 1005],
        troubles: Troubles { send: 3, ..NONE },
        end: RecordEnd::PeerFault,
        sent: Some(&[OPENED, b"OPTIO"]),
        ..USUAL
    },
    Row {
        name: "OPTIONS is sent again half of the timeout after it",
        came: &[
            Came::Other(b"no RTP"),
            Came::Other(b"no RTP"),
            Came::Data(9),
        ],
        moments: &[5, 1005, 2004, 2005],
        sent: Some(&[
            OPENED,
            OPTIONS,
            b"OPTIONS rtsp://127.0.0.1:18554/ RTSP/1.0\r\nCSeq: 4\r\nSession: 1a\r\n\r\n",
            b"TEARDOWN rtsp://127.0.0.1:18554/stream=7 RTSP/1.0\r\nCSeq: 5\r\nSession: 1a\r\n\r\n",
        ]),
        ..USUAL
    },
    Row {
        name: "the line of a gap is followed by that of the end",
        came: &[Came::Data(10), Came::Data(75)],
        moments: &[5, 6, 7, 8],
        troubles: Troubles { inlet: 3, ..NONE },
        count: 6,
        end: RecordEnd::PeerFault,
        sent: Some(&[OPENED]),
        written: Some(&[(10, 564)]),
        told: Some(b"gap 11 1\npeer fault\n"),
        ..USUAL
    },
    Row {
        name: "a last request that fails ends it",
        came: &[Came::Data(9)],
        troubles: Troubles { send: 3, ..NONE },
        end: RecordEnd::PeerFault,
        sent: Some(&[OPENED, b"TEARD"]),
        ..USUAL
    },
    Row {
        name: "a connection that ends behind the first reply ends it",
        replies: &[GRANTED],
        end: RecordEnd::Closed,
        told: Some(b"closed\n"),
        ..USUAL
    },
    Row {
        name: "behind a line that fails none is told",
        came: &[Came::Data(10), Came::Data(75)],
        troubles: Troubles {
            inlet: 3,
            errors: 1,
            ..NONE
        },
        count: 6,
        end: RecordEnd::PeerFault,
        told: Some(b"gap"),
        ..USUAL
    },
];

// The bytes of what comes.
fn bytes_of(alloc: Global, came: Came) -> Result<Vec<u8>, Fail> {
    match came {
        Came::Data(number) => Ok(Vec::from_slice(alloc, &datagram(number))?),
        Came::Other(bytes) => Ok(Vec::from_slice(alloc, bytes)?),
    }
}

fn play_row(alloc: Global, row: &Row) -> Result<Played, Fail> {
    let mut owned = Vec::new(alloc);
    for came in row.came {
        owned.push(bytes_of(alloc, *came)?)?;
    }
    let devices = devices_of(alloc, row, &owned)?;
    Ok(play(alloc, devices, row.count))
}

// The devices of a row, to whose inlet these datagrams come.
fn devices_of(alloc: Global, row: &Row, owned: &[Vec<u8>]) -> Result<Devices, Fail> {
    let mut datagrams = Vec::new(alloc);
    for bytes in owned {
        datagrams.push(bytes.as_slice())?;
    }
    Ok(memory_devices(alloc, row.replies, &datagrams, row.moments, row.troubles)?)
}

// Returns the first packets of these datagrams, in order.
fn packets_of(alloc: Global, parts: &[(u16, usize)]) -> Result<Vec<u8>, Fail> {
    let mut all = Vec::new(alloc);
    for (number, count) in parts {
        let whole = datagram(*number);
        all.extend_from_slice(whole[HEAD..].split_at((*count).min(564)).0)?;
    }
    Ok(all)
}

// Returns the bytes that must have been sent, or `sent` if the row doesn't say it.
fn sent_of(alloc: Global, row: &Row, sent: &[u8]) -> Result<Vec<u8>, Fail> {
    match row.sent {
        Some(texts) => joined(alloc, texts),
        None => Ok(Vec::from_slice(alloc, sent)?),
    }
}

// Returns the bytes that must have been written, or `written` if the row doesn't say it.
fn written_of(alloc: Global, row: &Row, written: &[u8]) -> Result<Vec<u8>, Fail> {
    match row.written {
        Some(parts) => packets_of(alloc, parts),
        None => Ok(Vec::from_slice(alloc, written)?),
    }
}

#[test]
fn recordings_come_to_what_their_rows_say(rt: HostRuntime) -> Result<(), Fail> {
    for row in ROWS {
        let played = play_row(rt.alloc(), row)?;
        let name = row.name;
        assert_eq!(rt; played.end(), row.end, "{name}");
        let sent = sent_of(rt.alloc(), row, played.sent())?;
        assert_eq!(rt; played.sent(), sent.as_slice(), "{name}");
        let written = written_of(rt.alloc(), row, played.written())?;
        assert_eq!(rt; played.written(), written.as_slice(), "{name}");
        assert_eq!(rt; played.told(), row.told.unwrap_or(played.told()), "{name}");
    }
    Ok(())
}

// Records a packet of which the datagram comes after so many others.
fn play_behind(alloc: Global, others: usize) -> Result<Played, Fail> {
    let wanted = datagram(9);
    let other: &[u8] = b"no RTP";
    let mut datagrams = vec![in alloc; other; others]?;
    datagrams.push(wanted.as_slice())?;
    let devices = memory_devices(alloc, USUAL.replies, &datagrams, USUAL.moments, NONE)?;
    Ok(play(alloc, devices, 1))
}

#[test]
fn other_datagrams_use_up_the_patience(rt: HostRuntime) -> Result<(), Fail> {
    for (others, end, written, told) in [
        (10063, RecordEnd::Done, 188, b"".as_slice()),
        (10064, RecordEnd::Silent, 0, b"silent\n"),
    ] {
        let played = play_behind(rt.alloc(), others)?;
        assert_eq!(rt; played.end(), end, "{others}");
        assert_eq!(rt; played.written().len(), written, "{others}");
        assert_eq!(rt; played.told(), told, "{others}");
    }
    Ok(())
}
