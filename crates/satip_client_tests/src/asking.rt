//! Exchanges over memory.
use satip_base::Want;
use satip_client::{Heard, Lease, Page, Pulse, RecordEnd, keep_alive, set_up, start};
use satip_fixtures::recordings::{ACCEPTED, GRANTED};
use satip_memory::{MemoryClock, MemoryConn};
use std::alloc::{AllocError, Global};
use std::test::Fail;

fn page(alloc: Global) -> Result<Page<'static>, Want> {
    Page::make(alloc, b"10.0.0.1", b"src=1")
}

fn asks(wire: &mut MemoryConn, page: &mut Page) -> Result<Lease, RecordEnd> {
    let mut heard = Heard::new();
    let lease = set_up(wire, 5000, page, &mut heard)?;
    start(wire, &lease, page, &mut heard)?;
    Ok(lease)
}

fn ends(
    alloc: Global,
    pieces: &[&[u8]],
    failing_receives: &[u64],
    failing_sends: &[u64],
) -> Result<RecordEnd, Want> {
    let mut wire = MemoryConn::make(alloc, pieces, failing_receives, failing_sends, 5)?;
    match asks(&mut wire, &mut page(alloc)?) {
        Ok(_) => Ok(RecordEnd::Done),
        Err(end) => Ok(end),
    }
}

#[test]
fn a_reply_is_heard_however_it_is_cut(rt: HostRuntime) -> Result<(), Fail> {
    for cut in 0..GRANTED.len() {
        let (begin, rest) = GRANTED.split_at(cut);
        let end = ends(rt.alloc(), &[begin, rest, ACCEPTED], &[], &[])?;
        assert_eq!(rt; end, RecordEnd::Done);
        assert_eq!(rt; ends(rt.alloc(), &[begin], &[], &[])?, RecordEnd::Closed);
    }
    Ok(())
}

// Pieces that come, each so often; the receives and sends that fail; and how it ends.
type Row = (
    &'static [(&'static [u8], usize)],
    &'static [u64],
    &'static [u64],
    RecordEnd,
);

const ROWS: &[Row] = &[
    (
        &[(b"RTSP/1.0 503 No\r\nCSeq: 1\r\n\r\n", 1)],
        &[],
        &[],
        RecordEnd::Refused(503),
    ),
    (
        &[(GRANTED, 1), (b"RTSP/1.0 454 No\r\nCSeq: 2\r\n\r\n", 1)],
        &[],
        &[],
        RecordEnd::Refused(454),
    ),
    (
        &[(b"RTSP/1.0 200 OK\r\nCSeq: 1\r\nSession: 1a\r\n\r\n", 1)],
        &[],
        &[],
        RecordEnd::BadReply,
    ),
    (
        &[(GRANTED, 1), (b"RTSP/1.0 503 No\r\nCSeq: 3\r\n\r\n", 1)],
        &[],
        &[],
        RecordEnd::BadReply,
    ),
    // Nothing is received after a whole refusal or a bad reply, so no fault of a later receive
    // counts.
    (
        &[(b"RTSP/1.0 503 No\r\nCSeq: 1\r\n\r\n", 1)],
        &[2],
        &[],
        RecordEnd::Refused(503),
    ),
    (
        &[(GRANTED, 1), (b"RTSP/1.0 454 No\r\nCSeq: 2\r\n\r\n", 1)],
        &[3],
        &[],
        RecordEnd::Refused(454),
    ),
    (&[(b"HTTP", 1)], &[2], &[], RecordEnd::BadReply),
    (&[(b"HTTP", 1)], &[], &[], RecordEnd::BadReply),
    (
        &[(GRANTED, 1), (ACCEPTED, 1)],
        &[2],
        &[],
        RecordEnd::PeerFault,
    ),
    (
        &[(GRANTED, 1), (ACCEPTED, 1)],
        &[],
        &[2],
        RecordEnd::PeerFault,
    ),
    (&[(b"", 9999)], &[], &[], RecordEnd::Closed),
    (&[(b"", 10000)], &[], &[], RecordEnd::Silent),
    // The idle receives of one wait don't count for the next.
    (
        &[(b"", 9999), (GRANTED, 1), (b"", 9999), (ACCEPTED, 1)],
        &[],
        &[],
        RecordEnd::Done,
    ),
    (
        &[(b"", 9999), (GRANTED, 1), (b"", 10000)],
        &[],
        &[],
        RecordEnd::Silent,
    ),
];

// The texts, each so often.
fn pieces_of(
    alloc: Global,
    texts: &[(&'static [u8], usize)],
) -> Result<Vec<&'static [u8]>, AllocError> {
    let mut pieces = Vec::new(alloc);
    for (text, times) in texts {
        for _ in 0..*times {
            pieces.push(*text)?;
        }
    }
    Ok(pieces)
}

#[test]
fn replies_faults_and_silence_end_it(rt: HostRuntime) -> Result<(), Fail> {
    for (place, (texts, receives, sends, end)) in ROWS.iter().enumerate() {
        let pieces = pieces_of(rt.alloc(), texts)?;
        let seen = ends(rt.alloc(), &pieces, receives, sends)?;
        assert_eq!(rt; seen, *end, "at {place}");
    }
    Ok(())
}

// A recording that began, with the moments of its clock.
#[derive(Drop)]
struct Begun {
    wire: MemoryConn,
    clock: MemoryClock,
    lease: Lease,
    page: Page<'static>,
}

fn just_begun(alloc: Global) -> Result<Begun, Fail> {
    let mut wire = MemoryConn::make(alloc, &[GRANTED, ACCEPTED], &[], &[], 0)?;
    let mut page = page(alloc)?;
    let lease = asks(&mut wire, &mut page).ok().ok_or("lease")?;
    let clock = MemoryClock::make(alloc, &[1004, 1005, 1006])?;
    Ok(Begun {
        wire,
        clock,
        lease,
        page,
    })
}

impl Begun {
    // Keeps the session alive at the next moment of the clock. Returns how it ended, if it did.
    fn beat(&mut self, pulse: &mut Pulse) -> Result<(), RecordEnd> {
        if pulse.cseq == u32::MAX {
            return Err(RecordEnd::Silent);
        }
        keep_alive(
            &mut self.wire,
            &mut self.clock,
            &self.lease,
            pulse,
            &mut self.page,
        )
    }

    // Returns the bytes that were sent after a place.
    fn sent_after(&self, before: usize) -> &[u8] {
        let sent = self.wire.sent();
        sent.split_at(before.min(sent.len())).1
    }
}

#[test]
fn half_of_the_timeout_brings_options(rt: HostRuntime) -> Result<(), Fail> {
    let mut begun = just_begun(rt.alloc())?;
    let mut pulse = Pulse { mark: 5, cseq: 3 };
    let before = begun.wire.sent().len();
    let options = b"OPTIONS rtsp://10.0.0.1/ RTSP/1.0\r\nCSeq: 3\r\nSession: 1a\r\n\r\n";
    for (moment, mark, cseq, text) in [
        (1004, 5, 3, b"".as_slice()),
        (1005, 1005, 4, options),
        (1006, 1005, 4, options),
    ] {
        assert_eq!(rt; begun.beat(&mut pulse), Ok(()), "at {moment}");
        assert_eq!(rt; pulse, Pulse { mark, cseq }, "at {moment}");
        assert_eq!(rt; begun.sent_after(before), text, "at {moment}");
    }
    Ok(())
}
