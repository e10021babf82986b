//! Made messages, in each way to cut them.

ghost use Rattle.std.specs.Prelude.{◌<◌, length};

use crate::checks::check;
use satip_frame::{Framer, Message, Step};
use std::alloc::Global;
use std::process::Abort;
use std::test::Fail;

// Numbers that follow from a seed.
#[derive(Drop)]
struct Draws {
    state: u64,
}

impl Draws {
    // Returns a number below a limit.
    fn below(&mut self, limit: usize) -> usize
        requires some { 0 < limit }
        ensures below { result < limit }
    {
        self.state = self
            .state
            .wrapping_mul(6_364_136_223_846_793_005)
            .wrapping_add(1_442_695_040_888_963_407);
        (self.state >> 33) as usize % limit
    }

    fn word(&mut self, words: &'static [&'static [u8]]) -> &'static [u8]
        requires some { 0 < length words.now }
    {
        words[self.below(words.len())]
    }
}

const METHODS: &[&[u8]] = &[b"PLAY", b"G", b"A-B"];

const TARGETS: &[&[u8]] = &[b"*", b"/", b"a:b?c"];

const VERSIONS: &[&[u8]] = &[b"RTSP/1.0", b"V"];

const NUMBERS: &[&[u8]] = &[b"1", b"23"];

const HEADERS: &[&[u8]] = &[b"", b"", b"X:", b"X: \ta b "];

const BLANKS: &[&[u8]] = &[b"", b" ", b"\t "];

const FRONTS: &[&[u8]] = &[b"", b"", b"\r\n", b"\n\r\n"];

const ENDS: &[&[u8]] = &[b"\r\n", b"\n"];

// The line of a length, the bytes of a body, and how many messages and which step a text with them
// has.
#[derive(Clone, Copy)]
struct Body {
    length: &'static [u8],
    bytes: &'static [u8],
    messages: usize,
    last: Step,
}

const BODIES: &[Body] = &[
    Body {
        length: b"",
        bytes: b"",
        messages: 2,
        last: Step::More,
    },
    Body {
        length: b"Content-Length: 0",
        bytes: b"",
        messages: 2,
        last: Step::More,
    },
    Body {
        length: b"content-length:9",
        bytes: b"\r\n\r\nA: 1\n",
        messages: 2,
        last: Step::More,
    },
    Body {
        length: b"Content-Length: 12",
        bytes: b"T / V\n\n\n\x00\xff\r\n",
        messages: 2,
        last: Step::More,
    },
    Body {
        length: b"Content-Length: 4097",
        bytes: b"",
        messages: 0,
        last: Step::TooLong,
    },
    Body {
        length: b"Content-Length: 2\nContent-Length: 2",
        bytes: b"ab",
        messages: 0,
        last: Step::Bad,
    },
    Body {
        length: b"no header",
        bytes: b"",
        messages: 0,
        last: Step::Bad,
    },
];

// A text that begins with a message, the words of that message, and what the text has.
#[derive(Drop)]
struct Made {
    text: Vec<u8>,
    method: &'static [u8],
    target: &'static [u8],
    version: &'static [u8],
    number: &'static [u8],
    messages: usize,
    last: Step,
}

// The message behind the first. It begins where the body of the first ends.
const NEXT: &[u8] = b"T / V\n\n";

// Appends a line, if it has any bytes.
fn add_line(text: &mut Vec<u8>, parts: &[&[u8]], end: &[u8]) -> Result<(), Fail> {
    let before = text.len();
    for part in parts {
        text.extend_from_slice(part)?;
    }
    if text.len() != before {
        text.extend_from_slice(end)?;
    }
    Ok(())
}

fn make(alloc: Global, draws: &mut Draws) -> Result<Made, Fail> {
    let method = draws.word(METHODS);
    let target = draws.word(TARGETS);
    let version = draws.word(VERSIONS);
    let number = draws.word(NUMBERS);
    let body = BODIES[draws.below(BODIES.len())];
    let end = draws.word(ENDS);
    let mut text = Vec::new(alloc);
    text.extend_from_slice(draws.word(FRONTS))?;
    add_line(&mut text, &[method, b" ", target, b" ", version], end)?;
    add_line(&mut text, &[draws.word(HEADERS)], draws.word(ENDS))?;
    add_line(&mut text, &[b"cseq:", draws.word(BLANKS), number], end)?;
    add_line(&mut text, &[body.length], draws.word(ENDS))?;
    text.extend_from_slice(draws.word(ENDS))?;
    text.extend_from_slice(body.bytes)?;
    text.extend_from_slice(NEXT)?;
    Ok(Made {
        text,
        method,
        target,
        version,
        number,
        messages: body.messages,
        last: body.last,
    })
}

// The number of messages that were told, whether the first was the made one, and the last step.
#[derive(Clone, Copy, Debug, PartialEq, Eq, Drop)]
struct Told {
    messages: usize,
    is_made: bool,
    last: Step,
}

fn is_made(message: &Message<'_>, made: &Made) -> bool {
    message.method() == made.method
        && message.target() == made.target
        && message.version() == made.version
        && message.header(b"CSeq") == Some(made.number)
}

// Feeds a piece, and adds the messages that are whole with it.
fn hear(framer: &mut Framer, piece: &[u8], made: &Made, told: &mut Told) {
    framer.feed(piece);
    for _ in 0..3u32 {
        told.last = framer.next();
        let Some(message) = framer.message() else {
            return;
        };
        if told.messages == 0 {
            told.is_made = is_made(&message, made);
        }
        told.messages = told.messages.saturating_add(1);
    }
}

const NOTHING: Told = Told {
    messages: 0,
    is_made: false,
    last: Step::More,
};

// What is told of a text in three pieces.
fn told_in(framer: &mut Framer, pieces: &[&[u8]; 3], made: &Made) -> Told {
    framer.reset();
    let mut told = NOTHING;
    for piece in pieces {
        hear(framer, piece, made, &mut told);
    }
    told
}

// What is told of a text byte by byte.
fn told_by_bytes(framer: &mut Framer, made: &Made) -> Told {
    framer.reset();
    let mut told = NOTHING;
    for byte in &made.text {
        hear(framer, &[*byte], made, &mut told);
    }
    told
}

// Asserts what is told of a text, whole, in each two and three pieces, and byte by byte.
fn check_cuts(rt: &impl Abort, framer: &mut Framer, made: &Made) {
    let wanted = Told {
        messages: made.messages,
        is_made: made.messages != 0,
        last: made.last,
    };
    let text: &[u8] = &made.text;
    for first in 0..text.len() {
        let (front, behind) = text.split_at(first);
        for second in 0..behind.len() {
            let (middle, back) = behind.split_at(second);
            let told = told_in(framer, &[front, middle, back], made);
            let cut = (first, second);
            check(rt, "cuts, and what is told", &(cut, told), &(cut, wanted));
        }
    }
    check(rt, "byte by byte", &told_by_bytes(framer, made), &wanted);
}

#[test]
fn made_messages_are_told_however_they_are_cut(rt: HostRuntime) -> Result<(), Fail> {
    let mut framer = Framer::make(rt.alloc())?;
    let mut draws = Draws { state: 58 };
    for _ in 0..200u32 {
        let made = make(rt.alloc(), &mut draws)?;
        check_cuts(&rt, &mut framer, &made);
    }
    Ok(())
}
