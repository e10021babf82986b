//! Long messages, byte by byte. They cost about as much a byte as short ones: if the cost of a
//! message grew with the square of its length, it would be 16 times as much.

use crate::checks::check;
use satip_fixtures::texts::repeated;
use satip_frame::{Framer, Step};
use satip_rtsp_interleaved::Parter;
use std::process::Abort;
use std::test::Fail;
use std::time::Instant;

// What takes a text byte by byte: a framer, or one of a connection that carries the packets too.
#[derive(Drop)]
enum Taker {
    Plain(Framer),
    Parted(Parter),
}

impl Taker {
    // Takes a byte. Returns whether a message is whole with it.
    fn take(&mut self, byte: u8) -> bool {
        let step = match self {
            Taker::Plain(framer) => {
                framer.feed(&[byte]);
                framer.next()
            }
            Taker::Parted(parter) => {
                parter.feed(&[byte]);
                parter.next()
            }
        };
        step == Step::Message
    }
}

// Parts of a text, and how often the text is taken.
#[derive(Clone, Copy)]
struct Row {
    parts: &'static [(&'static [u8], usize)],
    times: u32,
}

// Heads of 8192 and of 512 bytes; both rows have as many bytes.
const LONG_HEAD: Row = Row {
    parts: &[
        (b"OPTIONS * RTSP/1.0\r\nX: ", 1),
        (b"a", 8165),
        (b"\r\n\r\n", 1),
    ],
    times: 40,
};

const SHORT_HEAD: Row = Row {
    parts: &[
        (b"OPTIONS * RTSP/1.0\r\nX: ", 1),
        (b"a", 485),
        (b"\r\n\r\n", 1),
    ],
    times: 640,
};

// Bodies of 4096 and of 256 bytes behind heads of 4096 and of 256.
const LONG_BODY: Row = Row {
    parts: &[
        (b"OPTIONS * RTSP/1.0\r\nContent-Length: 4096\r\nX: ", 1),
        (b"a", 4047),
        (b"\r\n\r\n", 1),
        (b"x", 4096),
    ],
    times: 40,
};

const SHORT_BODY: Row = Row {
    parts: &[
        (b"OPTIONS * RTSP/1.0\r\nContent-Length: 256\r\nX: ", 1),
        (b"a", 208),
        (b"\r\n\r\n", 1),
        (b"x", 256),
    ],
    times: 640,
};

// Returns the number of messages of a text that is taken so often.
fn count_messages(taker: &mut Taker, text: &[u8], times: u32) -> u32 {
    let mut count: u32 = 0;
    for _ in 0..times {
        for byte in text {
            if taker.take(*byte) {
                count = count.saturating_add(1);
            }
        }
    }
    count
}

// Returns the microseconds that a row takes, the least of twelve times. Asserts that each text is
// one message.
fn least_micros(
    rt: &impl Abort,
    host: HostRuntime,
    taker: &mut Taker,
    row: Row,
) -> Result<u128, Fail> {
    let text = repeated(host.alloc(), row.parts)?;
    check(
        rt,
        "bytes",
        (text.len() as u64).saturating_mul(row.times as u64),
        327_680,
    );
    let mut least = u128::MAX;
    for _ in 0..12u32 {
        let begin = Instant::now(&host)?;
        let count = count_messages(taker, &text, row.times);
        let micros = begin.elapsed(&host)?.as_micros();
        check(rt, "messages", count, row.times);
        least = least.min(micros);
    }
    Ok(least)
}

// Asserts that a long text costs less than 5 times as much a byte as a short one.
fn check_rows(
    rt: &impl Abort,
    host: HostRuntime,
    taker: &mut Taker,
    long: Row,
    short: Row,
) -> Result<(), Fail> {
    let wanted = least_micros(rt, host, taker, short)?;
    let got = least_micros(rt, host, taker, long)?;
    assert!(rt;
        got / 5 <= wanted,
        "{got} microseconds, and {wanted} for short ones"
    );
    Ok(())
}

#[test]
fn a_long_head_costs_no_more_a_byte(rt: HostRuntime) -> Result<(), Fail> {
    let mut taker = Taker::Plain(Framer::make(rt.alloc())?);
    check_rows(&rt, rt, &mut taker, LONG_HEAD, SHORT_HEAD)
}

#[test]
fn a_long_body_costs_no_more_a_byte(rt: HostRuntime) -> Result<(), Fail> {
    let mut taker = Taker::Plain(Framer::make(rt.alloc())?);
    check_rows(&rt, rt, &mut taker, LONG_BODY, SHORT_BODY)
}

#[test]
fn a_long_head_among_packets_costs_no_more_a_byte(rt: HostRuntime) -> Result<(), Fail> {
    let mut taker = Taker::Parted(Parter::make(rt.alloc())?);
    check_rows(&rt, rt, &mut taker, LONG_HEAD, SHORT_HEAD)
}
