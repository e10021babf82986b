//! Reads lines by their words, before any digits are decoded.
ghost use Rattle.std.specs.Prelude.{◌≡◌, option_map};
ghost use Rattle.satip_base.specs.Numbers.{number_of};
ghost use Rattle.satip_tune.specs.Pieces.{pieces_left};
ghost use Rattle.satip_script.specs.Lines.{is_skipped_text, one_word_of, two_words_of, three_words_of};
ghost use Rattle.satip_script.specs.Forms.{Rtsp, Http, Other, call_by, form_named, tick_by, packet_by, ended_by, ask_by, pull_by, close_by, stop_by};
ghost use Rattle.satip_script.specs.InParts.{HasParts, form_in};
ghost use Rattle.satip_script.specs.Inner.{call_told};

use crate::pieces::cut;
use crate::words::{one_word, read_draw, two_words, two_words_and_rest};
use satip_base::{Draw, Peer, SessionId, read_ip, read_number};
use satip_tune::same_bytes;

/// An event of a script by the words of its line. It is smaller than an `Event`, which has room for
/// a request.
#[derive(Drop)]
pub enum EventParts<'a> {
    /// A text over RTSP, in digits. The line is wrong if `read_request` finds none.
    Rtsp {
        peer: Peer,
        draw: Draw,
        digits: &'a [u8],
    },
    /// A text over HTTP, in digits. The line is wrong if `read_get` finds none.
    Http {
        peer: Peer,
        draw: Draw,
        digits: &'a [u8],
    },
    /// A tick at a moment, in milliseconds.
    Tick {
        now: u64,
    },
    /// A packet in digits. The line is wrong if `satip_ts::read_packet` finds none.
    Packet {
        front: u16,
        tune: u64,
        digits: &'a [u8],
    },
    /// The recording of a front end's tune number ended.
    Ended {
        front: u16,
        tune: u64,
    },
    /// A front end asks for work.
    Ask {
        front: u16,
    },
    /// An HTTP session pulls bytes.
    Pull {
        session: SessionId,
    },
    /// An HTTP session closes.
    Close {
        session: SessionId,
    },
    /// The server stops.
    Stop,
    /// A wrong line.
    Wrong,
}

/// Returns the parts of a line's event, or None if the line is skipped.
pub(crate) fn read_parts<'a>(line: &'a [u8]) -> Option<EventParts<'a>>
    ensures parts { HasParts line.now result }
{
    if is_skipped(line) {
        return None;
    }
    let (kind, rest) = cut(line, b' ');
    Some(read_kind(kind, rest))
}

fn is_skipped(line: &[u8]) -> bool
    ensures test { result ≡ is_skipped_text line.now }
{
    match line {
        [] => true,
        [first, ..] => *first == b'#',
    }
}

// Returns the parts of a line of this kind, given the rest of the line.
#[tactic(auto, unfolding(crate::specs::Forms::form_named, crate::specs::Forms::event_of))]
fn read_kind<'a>(kind: &[u8], rest: Option<&'a [u8]>) -> EventParts<'a>
    ensures form { form_in result ≡ form_named kind.now (pieces_left 32 rest.entry) }
{
    if same_bytes(kind, b"packet") {
        read_packet_words(rest)
    } else if same_bytes(kind, b"ask") {
        read_ask(rest)
    } else if same_bytes(kind, b"tick") {
        read_tick(rest)
    } else if same_bytes(kind, b"rtsp") {
        read_rtsp_words(rest)
    } else if same_bytes(kind, b"http") {
        read_http_words(rest)
    } else if same_bytes(kind, b"ended") {
        read_ended(rest)
    } else if same_bytes(kind, b"pull") {
        read_pull(rest)
    } else if same_bytes(kind, b"close") {
        read_close(rest)
    } else if same_bytes(kind, b"stop") {
        read_stop(rest)
    } else {
        EventParts::Wrong
    }
}

fn read_rtsp_words<'a>(rest: Option<&'a [u8]>) -> EventParts<'a>
    ensures form { form_in result ≡ option_map Rtsp
        (call_by (three_words_of (pieces_left 32 rest.entry))) }
{
    match call_words(rest) {
        Some((peer, draw, digits)) => EventParts::Rtsp { peer, draw, digits },
        None => EventParts::Wrong,
    }
}

fn read_http_words<'a>(rest: Option<&'a [u8]>) -> EventParts<'a>
    ensures form { form_in result ≡ option_map Http
        (call_by (three_words_of (pieces_left 32 rest.entry))) }
{
    match call_words(rest) {
        Some((peer, draw, digits)) => EventParts::Http { peer, draw, digits },
        None => EventParts::Wrong,
    }
}

// Returns the sender, the draw, and the digits of the text. A space is no digit, so the digits
// aren't searched for one.
#[tactic(auto, using(crate::proofs::WordLemmas::call_of_rest))]
fn call_words<'a>(rest: Option<&'a [u8]>) -> Option<(Peer, Draw, &'a [u8])>
    ensures call { call_told result ≡ call_by (three_words_of (pieces_left 32 rest.entry)) }
{
    let Some((peer, draw, digits)) = two_words_and_rest(rest) else {
        return None;
    };
    let Some(ip) = read_ip(peer) else {
        return None;
    };
    let Some(draw) = read_draw(draw) else {
        return None;
    };
    Some((Peer { ip }, draw, digits))
}

fn read_tick<'a>(rest: Option<&'a [u8]>) -> EventParts<'a>
    ensures form { form_in result ≡ option_map Other
        (tick_by (one_word_of (pieces_left 32 rest.entry))) }
{
    let Some(now) = one_word(rest) else {
        return EventParts::Wrong;
    };
    match read_number(now, u64::MAX) {
        Some(now) => EventParts::Tick { now },
        None => EventParts::Wrong,
    }
}

// Reads the number of a front end.
#[tactic(auto, using(satip_rtsp::proofs::CseqLemmas::cseq_bounds))]
fn read_front(word: &[u8]) -> Option<u16>
    ensures front { result ≡ number_of 65535 word.now }
{
    match read_number(word, u16::MAX as u64) {
        Some(front) => Some(front as u16),
        None => None,
    }
}

// Reads the words of a packet's line. A space is no digit, so the digits aren't searched for one.
#[tactic(auto, using(crate::proofs::WordLemmas::packet_of_rest))]
fn read_packet_words<'a>(rest: Option<&'a [u8]>) -> EventParts<'a>
    ensures form { form_in result ≡ option_map Other
        (packet_by (three_words_of (pieces_left 32 rest.entry))) }
{
    let Some((front, tune, digits)) = two_words_and_rest(rest) else {
        return EventParts::Wrong;
    };
    let Some(front) = read_front(front) else {
        return EventParts::Wrong;
    };
    match read_number(tune, u64::MAX) {
        Some(tune) => EventParts::Packet {
            front,
            tune,
            digits,
        },
        None => EventParts::Wrong,
    }
}

fn read_ended<'a>(rest: Option<&'a [u8]>) -> EventParts<'a>
    ensures form { form_in result ≡ option_map Other
        (ended_by (two_words_of (pieces_left 32 rest.entry))) }
{
    let Some((front, tune)) = two_words(rest) else {
        return EventParts::Wrong;
    };
    let Some(front) = read_front(front) else {
        return EventParts::Wrong;
    };
    match read_number(tune, u64::MAX) {
        Some(tune) => EventParts::Ended { front, tune },
        None => EventParts::Wrong,
    }
}

fn read_ask<'a>(rest: Option<&'a [u8]>) -> EventParts<'a>
    ensures form { form_in result ≡ option_map Other
        (ask_by (one_word_of (pieces_left 32 rest.entry))) }
{
    let Some(front) = one_word(rest) else {
        return EventParts::Wrong;
    };
    match read_front(front) {
        Some(front) => EventParts::Ask { front },
        None => EventParts::Wrong,
    }
}

fn read_pull<'a>(rest: Option<&'a [u8]>) -> EventParts<'a>
    ensures form { form_in result ≡ option_map Other
        (pull_by (one_word_of (pieces_left 32 rest.entry))) }
{
    let Some(session) = one_word(rest) else {
        return EventParts::Wrong;
    };
    match SessionId::read(session) {
        Some(session) => EventParts::Pull { session },
        None => EventParts::Wrong,
    }
}

fn read_close<'a>(rest: Option<&'a [u8]>) -> EventParts<'a>
    ensures form { form_in result ≡ option_map Other
        (close_by (one_word_of (pieces_left 32 rest.entry))) }
{
    let Some(session) = one_word(rest) else {
        return EventParts::Wrong;
    };
    match SessionId::read(session) {
        Some(session) => EventParts::Close { session },
        None => EventParts::Wrong,
    }
}

fn read_stop<'a>(rest: Option<&'a [u8]>) -> EventParts<'a>
    ensures form { form_in result ≡ option_map Other (stop_by (pieces_left 32 rest.entry)) }
{
    match rest {
        None => EventParts::Stop,
        Some(_) => EventParts::Wrong,
    }
}
