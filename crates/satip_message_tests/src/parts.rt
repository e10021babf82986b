//! Frames and messages in pieces.
ghost use Rattle.std.specs.Prelude.{◌≡◌, [], ◌∷◌, ◌++◌, codes, replicate};
ghost use Rattle.satip_rtsp_interleaved.specs.Frames.{Between, frame, behind};

use crate::checks::check;
use satip_fixtures::texts::OPTIONS;
use satip_frame::Step;
use satip_rtsp_interleaved::Parter;
use std::process::Abort;

const FRAME_AND_OPTIONS: &[u8] =
    b"$\x01\x00\x04\x00\x00\x00\x00OPTIONS * RTSP/1.0\r\nCSeq: 1\r\n\r\n";

// Frames of 4, of 0 and of 256 bytes before a message, and beginnings of a frame.
fn worked_frames()
    ensures bytes { frame 1 (0 ∷ 0 ∷ 0 ∷ 0 ∷ []) ≡ 36 ∷ 1 ∷ 0 ∷ 4 ∷ 0 ∷ 0 ∷ 0 ∷ 0 ∷ [] }
    ensures four { behind Between (36 ∷ 1 ∷ 0 ∷ 4 ∷ 0 ∷ 0 ∷ 0 ∷ 0 ∷ codes "OPTIONS *")
        ≡ codes "OPTIONS *" }
    ensures none { behind Between (36 ∷ 0 ∷ 0 ∷ 0 ∷ 13 ∷ 10 ∷ codes "OPTIONS *")
        ≡ codes "OPTIONS *" }
    ensures many { behind Between (36 ∷ 5 ∷ 1 ∷ 0 ∷ replicate 256 36 ++ codes "OPTIONS *")
        ≡ codes "OPTIONS *" }
    ensures unfinished { behind Between (36 ∷ 1 ∷ 0 ∷ 4 ∷ 0 ∷ 0 ∷ 0 ∷ []) ≡ [] }
    ensures head { behind Between (10 ∷ 36 ∷ 1 ∷ 0 ∷ []) ≡ [] }
    ensures message { behind Between (codes "A$b") ≡ codes "A$b" }
{}

// Texts that are fed, each so often, and the step that follows each time; with a message's method
// where it is looked at.
type Feed = (&'static [u8], usize, Step, Option<&'static [u8]>);

const ROWS: &[(&str, &[Feed])] = &[
    (
        "a dollar in a body is no frame",
        &[
            (
                b"SET_PARAMETER * RTSP/1.0\r\n\
                Content-Length: 5\r\n\r\n\
                $\x00\x00\x09$$\x00\x00\x01$OPTIONS * RTSP/1.0\r\n\r\n",
                1,
                Step::Message,
                Some(b"SET_PARAMETER"),
            ),
            (b"", 1, Step::Message, Some(b"OPTIONS")),
            (b"", 1, Step::More, None),
        ],
    ),
    (
        "a frame without content",
        &[
            (b"$\x00\x00\x00\r\n$\xff\x00\x00", 1, Step::More, None),
            (OPTIONS, 1, Step::Message, None),
        ],
    ),
    (
        "a frame of 65535 bytes",
        &[
            (b"$\x05\xff\xff", 1, Step::More, None),
            (&[b'$'; 4369], 15, Step::More, None),
            (OPTIONS, 1, Step::Message, None),
        ],
    ),
    (
        "a frame that never ends",
        &[
            (b"$\x00\xff\xff", 1, Step::More, None),
            (OPTIONS, 101, Step::More, None),
        ],
    ),
    (
        "a broken text stays broken",
        &[
            (b"$\x00\x00\x01xno message\r\n\r\n", 1, Step::Bad, None),
            (OPTIONS, 1, Step::Bad, None),
        ],
    ),
    (
        "a long body stays too long",
        &[
            (
                b"SET_PARAMETER * RTSP/1.0\r\nContent-Length: 4097\r\n\r\n",
                1,
                Step::TooLong,
                None,
            ),
            (OPTIONS, 1, Step::TooLong, None),
        ],
    ),
];

// Whether the message that was found has this method.
fn has_method(parter: &Parter, method: &[u8]) -> bool {
    match parter.message() {
        Some(message) => message.method() == method,
        None => false,
    }
}

// Feeds a text, and returns the bytes that are taken and the step that follows.
fn feed(parter: &mut Parter, text: &[u8]) -> (usize, Step) {
    (parter.feed(text), parter.next())
}

// Asserts that a text is followed by its step each time. All of it is taken, and nothing once the
// parts ended.
fn check_feed(rt: &impl Abort, name: &str, parter: &mut Parter, told: &Feed, ended: bool) {
    let (text, times, step, method) = *told;
    let taken = if ended { 0 } else { text.len() };
    for _ in 0..times {
        check(rt, name, feed(parter, text), (taken, step));
    }
    if let Some(method) = method {
        check(rt, name, has_method(parter, method), true);
    }
}

// Asserts that each text is followed by its step.
fn check_rows(rt: &impl Abort, parter: &mut Parter, rows: &[(&str, &[Feed])]) {
    for (name, feeds) in rows {
        let mut ended = false;
        parter.reset();
        for told in *feeds {
            check_feed(rt, name, parter, told, ended);
            ended = told.2 == Step::Bad || told.2 == Step::TooLong;
        }
    }
}

#[test]
fn frames_are_passed_over_as_their_rows_say(rt: HostRuntime) {
    let mut parter = Parter::make(rt.alloc()).expect(&rt, "out of memory");
    check_rows(&rt, &mut parter, ROWS);
}

// Whether one message is found that is fed in two pieces, and gone at the next step.
fn is_found(parter: &mut Parter, front: &[u8], back: &[u8]) -> bool {
    parter.reset();
    feed(parter, front) == (front.len(), Step::More)
        && feed(parter, back) == (back.len(), Step::Message)
        && has_method(parter, b"OPTIONS")
        && feed(parter, b"") == (0, Step::More)
        && parter.message().is_none()
}

// Asserts that one message is found in a text that is cut at each of its bytes.
fn check_cuts(rt: &impl Abort, parter: &mut Parter, text: &[u8]) {
    for cut in 0..text.len() {
        let (front, back) = text.split_at(cut);
        let found = is_found(parter, front, back);
        check(rt, "a place, and what is found", (cut, found), (cut, true));
    }
}

#[test]
fn a_frame_and_options_cut_at_every_byte(rt: HostRuntime) {
    let mut parter = Parter::make(rt.alloc()).expect(&rt, "out of memory");
    check_cuts(&rt, &mut parter, FRAME_AND_OPTIONS);
}

// Feeds a text byte by byte. Asserts that each byte is taken, and returns the number of messages.
fn feed_bytes(rt: &impl Abort, parter: &mut Parter, text: &[u8]) -> u8 {
    let mut found = 0u8;
    for byte in text {
        check(rt, "taken", parter.feed(&[*byte]), 1);
        if parter.next() == Step::Message {
            found = found.saturating_add(1);
        }
    }
    found
}

#[test]
fn one_byte_at_a_time(rt: HostRuntime) {
    let mut parter = Parter::make(rt.alloc()).expect(&rt, "out of memory");
    let found = feed_bytes(&rt, &mut parter, FRAME_AND_OPTIONS);
    check(&rt, "messages", found, 1);
}
