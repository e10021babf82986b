//! Texts at the limits, fed in pieces of several sizes.
use crate::checks::check;
use crate::framed::framer_at;
use satip_fixtures::texts::{OPTIONS, repeated};
use satip_frame::{Framer, Message, Step};
use std::alloc::Global;
use std::process::Abort;
use std::test::Fail;

// Feeds the text in pieces of at most `size` bytes, and counts the messages up to the last step.
fn read_all(framer: &mut Framer, text: &[u8], size: usize) -> (usize, Step) {
    let mut rest = text;
    let mut count = 0usize;
    for _ in 0..2_000_000u32 {
        match framer.next() {
            Step::Message => count = count.saturating_add(1),
            Step::More => {
                if rest.is_empty() {
                    return (count, Step::More);
                }
                let taken = framer.feed(rest.split_at(size.min(rest.len())).0);
                rest = rest.split_at(taken.min(rest.len())).1;
            }
            Step::Bad => return (count, Step::Bad),
            Step::TooLong => return (count, Step::TooLong),
        }
    }
    (count, Step::More)
}

// A text of these parts, each so often, which is fed in pieces of at most this size, how many
// messages it has, and the last step.
#[derive(Clone, Copy)]
struct Row {
    name: &'static str,
    parts: &'static [(&'static [u8], usize)],
    size: usize,
    seen: (usize, Step),
}

const BEGINNING: (&[u8], usize) = (b"OPTIONS * RTSP/1.0\r\nCSeq: 1\r\n", 1);

const END: (&[u8], usize) = (b"\r\n", 1);

const ROWS: &[Row] = &[
    Row {
        name: "one byte at a time",
        parts: &[(OPTIONS, 1)],
        size: 1,
        seen: (1, Step::More),
    },
    Row {
        name: "a head of 8192 bytes",
        parts: &[BEGINNING, (b"X: ", 1), (b"a", 8156), (b"\r\n\r\n", 1)],
        size: 4096,
        seen: (1, Step::More),
    },
    Row {
        name: "a head of 8193 bytes",
        parts: &[BEGINNING, (b"X: a", 1), (b"a", 8156), (b"\r\n\r\n", 1)],
        size: 4096,
        seen: (0, Step::Bad),
    },
    Row {
        name: "a body of 4096 bytes",
        parts: &[
            BEGINNING,
            (b"Content-Length: 4096\r\n\r\n", 1),
            (b"x", 4096),
            (OPTIONS, 1),
        ],
        size: 1000,
        seen: (2, Step::More),
    },
    Row {
        name: "a body of 4097 bytes",
        parts: &[
            BEGINNING,
            (b"content-length: 4097\r\n\r\n", 1),
            (b"x", 4096),
        ],
        size: 1000,
        seen: (0, Step::TooLong),
    },
    Row {
        name: "two lengths",
        parts: &[BEGINNING, (b"Content-Length: 0\r\n", 2), END],
        size: 1000,
        seen: (0, Step::Bad),
    },
    Row {
        name: "a length with a sign",
        parts: &[BEGINNING, (b"Content-Length: +1\r\n", 1), END],
        size: 1000,
        seen: (0, Step::Bad),
    },
    Row {
        name: "64 headers",
        parts: &[BEGINNING, (b"X: 1\r\n", 63), END],
        size: 500,
        seen: (1, Step::More),
    },
    Row {
        name: "65 headers",
        parts: &[BEGINNING, (b"X: 1\r\n", 64), END],
        size: 500,
        seen: (0, Step::Bad),
    },
    Row {
        name: "a million ends of lines",
        parts: &[(b"\n", 1_000_000)],
        size: 4096,
        seen: (0, Step::More),
    },
    Row {
        name: "a million ends of lines before a message",
        parts: &[(b"\n", 1_000_000), (OPTIONS, 1)],
        size: 4096,
        seen: (1, Step::More),
    },
    Row {
        name: "a hundred thousand letters behind a message",
        parts: &[(OPTIONS, 1), (b"a", 100_000)],
        size: 4096,
        seen: (1, Step::Bad),
    },
    Row {
        name: "a version of 16 bytes, and another message",
        parts: &[
            (b"OPTIONS * 1234567890123456\nX:\xff\x09\n\n", 1),
            (b"OPTIONS * RTSP/1.0\n\n", 1),
        ],
        size: 7,
        seen: (2, Step::More),
    },
];

// Heads that are bad, fed in pieces of at most 7 bytes.
const BAD: &[(&str, &[u8])] = &[
    ("two spaces", b"OPTIONS  * RTSP/1.0\r\n\r\n"),
    ("a space at the end", b"OPTIONS * RTSP/1.0 \r\n\r\n"),
    ("two words", b"OPTIONS *\r\n\r\n"),
    ("a parenthesis in a method", b"OPT(NS * RTSP/1.0\r\n\r\n"),
    (
        "a byte past ASCII in a target",
        b"OPTIONS \x80 RTSP/1.0\r\n\r\n",
    ),
    (
        "a version of 17 bytes",
        b"OPTIONS * 12345678901234567\r\n\r\n",
    ),
    (
        "a space before a colon",
        b"OPTIONS * RTSP/1.0\r\nCSeq : 1\r\n\r\n",
    ),
    ("a folded line", b"OPTIONS * RTSP/1.0\r\nX: 1\r\n 2\r\n\r\n"),
    ("two carriage returns", b"OPTIONS * RTSP/1.0\r\n\r\r\n\r\n"),
];

// Whether no more is taken and no other step follows once a framer has ended.
fn stays_ended(framer: &mut Framer, step: Step) -> bool {
    step == Step::More || framer.feed(OPTIONS) == 0 && framer.next() == step
}

// Asserts which messages texts have, and that a framer which has ended stays so.
fn check_rows(rt: &impl Abort, alloc: Global, rows: &[Row]) -> Result<(), Fail> {
    let mut framer = Framer::make(alloc)?;
    for row in rows {
        let text = repeated(alloc, row.parts)?;
        framer.reset();
        let seen = read_all(&mut framer, &text, row.size);
        check(rt, row.name, seen, row.seen);
        check(rt, row.name, stays_ended(&mut framer, row.seen.1), true);
    }
    Ok(())
}

fn check_bad(rt: &impl Abort, alloc: Global, rows: &[(&str, &[u8])]) {
    let mut framer = Framer::make(alloc).expect(rt, "out of memory");
    for (name, text) in rows {
        framer.reset();
        check(rt, name, read_all(&mut framer, text, 7), (0, Step::Bad));
        check(rt, name, stays_ended(&mut framer, Step::Bad), true);
    }
}

#[test]
fn texts_have_the_messages_that_their_rows_say(rt: HostRuntime) -> Result<(), Fail> {
    check_bad(&rt, rt.alloc(), BAD);
    check_rows(&rt, rt.alloc(), ROWS)
}

// Whether one message is found that is fed in two pieces.
fn is_found(framer: &mut Framer, front: &[u8], back: &[u8]) -> bool {
    framer.reset();
    framer.feed(front) == front.len()
        && framer.next() == Step::More
        && framer.feed(back) == back.len()
        && framer.next() == Step::Message
        && framer.next() == Step::More
}

// Asserts that one message is found in a text that is cut at each of its bytes.
fn check_cuts(rt: &impl Abort, framer: &mut Framer, text: &[u8]) {
    for cut in 0..text.len() {
        let (front, back) = text.split_at(cut);
        let found = is_found(framer, front, back);
        check(rt, "a place, and what is found", (cut, found), (cut, true));
    }
}

#[test]
fn one_message_however_it_is_cut(rt: HostRuntime) {
    let mut framer = Framer::make(rt.alloc()).expect(&rt, "out of memory");
    check_cuts(&rt, &mut framer, OPTIONS);
}

// Asserts the fields of a message.
fn check_fields(rt: &impl Abort, message: &Message, fields: &[(&str, Option<&[u8]>)]) {
    for (name, value) in fields {
        check(rt, name, message.header(name.as_bytes()), *value);
    }
}

const PLAY: &[u8] = b"\r\nPLAY /stream=1 RTSP/1.0\nCSeq:\t7 \r\nSession: a\nsession: b\r\n\r\n";

const FIELDS: &[(&str, Option<&[u8]>)] = &[
    ("cseq", Some(b"7")),
    ("SESSION", Some(b"a")),
    ("Require", None),
];

#[test]
fn a_message_has_words_and_headers(rt: HostRuntime) {
    let framer = framer_at(&rt, rt.alloc(), "message", PLAY);
    let message = framer.message().expect(&rt, "message");
    check(&rt, "method", message.method(), b"PLAY");
    check(&rt, "target", message.target(), b"/stream=1");
    check(&rt, "version", message.version(), b"RTSP/1.0");
    check_fields(&rt, &message, FIELDS);
}

#[test]
fn there_is_no_message_before_one_was_read(rt: HostRuntime) {
    let framer = Framer::make(rt.alloc()).expect(&rt, "out of memory");
    check(&rt, "message", framer.message().is_some(), false);
}

#[test]
fn a_message_is_gone_once_more_is_fed(rt: HostRuntime) {
    let mut framer = framer_at(&rt, rt.alloc(), "message", PLAY);
    check(&rt, "message", framer.message().is_some(), true);
    framer.feed(b"P");
    check(&rt, "gone", framer.message().is_some(), false);
}

const FIVE_BYTES_AND_OPTIONS: &[u8] = b"$\x00\x00\x01OOPTIONS * RTSP/1.0\r\n\r\nleft";

#[test]
fn what_waits_is_shown(rt: HostRuntime) {
    let mut framer = Framer::make(rt.alloc()).expect(&rt, "out of memory");
    framer.reset();
    check(&rt, "held", framer.held(), b"");
    framer.feed(FIVE_BYTES_AND_OPTIONS);
    let front = framer.held().get(..6);
    check(&rt, "held behind a feed", front, Some(b"$\x00\x00\x01OO"));
}

// A framer that was fed five bytes before a message, and passed over them.
fn behind_five_bytes(rt: &impl Abort, alloc: Global) -> Framer {
    let mut framer = Framer::make(alloc).expect(rt, "out of memory");
    framer.feed(FIVE_BYTES_AND_OPTIONS);
    if framer.held().len() > 5 {
        framer.skip(5);
    }
    framer
}

#[test]
fn what_is_passed_over_waits_no_more(rt: HostRuntime) {
    let framer = behind_five_bytes(&rt, rt.alloc());
    let rest = b"OPTIONS * RTSP/1.0\r\n\r\nleft";
    check(&rt, "held", framer.held(), rest);
}

#[test]
fn a_message_is_read_behind_what_is_passed_over(rt: HostRuntime) {
    let mut framer = behind_five_bytes(&rt, rt.alloc());
    check(&rt, "step", framer.next(), Step::Message);
    check(&rt, "message", framer.message().is_some(), true);
    check(&rt, "held", framer.held(), b"left");
}
