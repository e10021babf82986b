//! Lines and printed entries of the worked rows, and cases that no clause names.
ghost use Rattle.std.specs.Prelude.{◌≡◌, [], ◌∷◌, Some, None, true, false, codes};
ghost use Rattle.satip_base.specs.Output.{empty};
ghost use Rattle.satip_plain.specs.declared.events.Event.TheVariants.{Tick, Ended, Ask, Pull, Close, Stop};
ghost use Rattle.satip_plain.specs.declared.answers.Answer.TheVariants.{Replied as RepliedIs, Get as GetIs, Beat as BeatIs, Work as WorkIs, Pulled as PulledIs, Closed as ClosedIs};
ghost use Rattle.satip_plain.specs.declared.answers.GetAnswer.TheVariants.{Started, Refused};
ghost use Rattle.satip_plain.specs.declared.answers.Beat.TheVariants.{Going, Stopping};
ghost use Rattle.satip_plain.specs.declared.answers.Work.TheVariants.{Tune, Nothing};
ghost use Rattle.satip_plain.specs.declared.answers.Pulled.TheVariants.{Bytes, Empty, Gone};
ghost use Rattle.satip_plain.specs.declared.answers.Closed.TheVariants.{Yes};
ghost use Rattle.satip_script.specs.Lines.{lines_of, words_of, is_skipped_text};
ghost use Rattle.satip_script.specs.Forms.{Other, Rtsp, form_of};
ghost use Rattle.satip_script.specs.Printed.{entry_text, datagram_line};

use crate::checks::{Parts, check, given};
use satip_base::{Address, Draw, Out, Peer, Ports, SessionId};
use satip_fixtures::texts::{OPTIONS, SETUP, joined, repeated};
use satip_fixtures::{CLIENT, DRAW};
use satip_frame::{Break, Framer};
use satip_http::{HttpRefusal, HttpRequest};
use satip_plain::{Answer, Beat, Closed, Event, GetAnswer, Pulled, Replied, Work};
use satip_rtsp::{Method, Refusal, Request, SessionName};
use satip_script::{
    EventParts, Line, Script, check_script, print_entry, read_get, read_line, read_request,
};
use satip_ts::read_packet;
use std::alloc::Global;
use std::process::Abort;

// What lines of each kind ask for, by their words.
#[tactic(auto, unfolding(satip_script::specs::Forms::form_named, satip_script::specs::Forms::event_of, satip_script::specs::Lines::one_word_of, satip_script::specs::Lines::two_words_of, satip_script::specs::Lines::three_words_of, satip_script::specs::Parts::draw_of, satip_base::specs::Numbers::number_of, satip_base::specs::Numbers::ip_of, satip_base::specs::Texts::id_of, hex::proofs::OnLiterals::hex_on_literals))]
fn lines_ask_for_events()
    ensures tick { form_of (words_of (codes "tick 59999")) ≡ Some (Other (Tick 59999)) }
    ensures ended { form_of (words_of (codes "ended 1 2")) ≡ Some (Other (Ended 1 2)) }
    ensures ask { form_of (words_of (codes "ask 65535")) ≡ Some (Other (Ask 65535)) }
    ensures no_such_front { form_of (words_of (codes "ask 65536")) ≡ None }
    ensures pull { form_of (words_of (codes "pull 000000010000000a"))
        ≡ Some (Other (Pull (record { count = 1; word = 10 }))) }
    ensures close { form_of (words_of (codes "close 000000010000000a"))
        ≡ Some (Other (Close (record { count = 1; word = 10 }))) }
    ensures upper_case_id { form_of (words_of (codes "close 000000010000000A")) ≡ None }
    ensures stop { form_of (words_of (codes "stop")) ≡ Some (Other Stop) }
    ensures misspelt { form_of (words_of (codes "tik 5")) ≡ None }
    ensures two_spaces { form_of (words_of (codes "tick  5")) ≡ None }
    ensures space_behind { form_of (words_of (codes "stop ")) ≡ None }
    ensures space_before { form_of (words_of (codes " stop")) ≡ None }
    ensures rtsp { form_of (words_of (codes "rtsp 192.168.1.20 0000000a11223344FFFF 0D0a"))
        ≡ Some (Rtsp (record {
          peer = record { ip = 3232235796 };
          draw = record { word = 10; ssrc = 287454020; first = 65535 };
          text = 13 ∷ 10 ∷ [];
        })) }
    ensures odd { form_of (words_of (codes "rtsp 192.168.1.20 0000000a11223344ffff 0d0")) ≡ None }
    ensures comment { is_skipped_text (codes "# tick 5") ≡ true }
    ensures only_carriage_return { is_skipped_text (codes "\r") ≡ false }
    ensures last_line { lines_of (codes "ask 1\nstop") ≡ codes "ask 1" ∷ codes "stop" ∷ [] }
    ensures line_behind { lines_of (codes "ask 1\n") ≡ codes "ask 1" ∷ [] ∷ [] }
{}

// The lines of answers and of a datagram.
#[tactic(auto, unfolding(satip_script::specs::Printed::hex_line, satip_script::specs::Printed::plain_line, satip_script::specs::Printed::replied_front, satip_script::specs::Printed::get_front, satip_script::specs::Printed::work_words, satip_script::specs::Printed::datagram_front, satip_base::specs::Texts::address_text, satip_base::specs::Texts::id_text, hex::proofs::OnLiterals::hex_on_literals))]
fn answers_are_printed()
    ensures replied { entry_text (RepliedIs (record { status = 200; closing = false }))
        (record empty { reply = 82 ∷ 255 ∷ [] }) ≡ codes "reply 200 0 52ff\n" }
    ensures closing { entry_text (RepliedIs (record { status = 400; closing = true }))
        (record empty { reply = 82 ∷ [] }) ≡ codes "reply 400 1 52\n" }
    ensures started { entry_text (GetIs (Started (record { count = 1; word = 10 })))
        (record empty { reply = 72 ∷ [] }) ≡ codes "started 000000010000000a 48\n" }
    ensures refused { entry_text (GetIs (Refused 404)) (record empty { reply = 72 ∷ [] })
        ≡ codes "refused 404 48\n" }
    ensures going { entry_text (BeatIs Going) empty ≡ codes "going\n" }
    ensures stopping { entry_text (BeatIs Stopping) empty ≡ codes "stopping\n" }
    ensures tune { entry_text (WorkIs (Tune 2 18446744073709551615)) empty
        ≡ codes "tune 2 18446744073709551615\n" }
    ensures nothing { entry_text (WorkIs Nothing) empty ≡ codes "nothing\n" }
    ensures bytes { entry_text (PulledIs (Bytes 2)) (record empty { reply = 71 ∷ 0 ∷ [] })
        ≡ codes "bytes 4700\n" }
    ensures nothing_queued { entry_text (PulledIs Empty) empty ≡ codes "empty\n" }
    ensures gone { entry_text (PulledIs Gone) empty ≡ codes "gone\n" }
    ensures closed { entry_text (ClosedIs Yes) empty ≡ codes "closed\n" }
    ensures datagram { datagram_line (record {
      to = record { ip = 3232235796; port = 1401 };
      bytes = 128 ∷ 200 ∷ [];
    }) ≡ codes "datagram 192.168.1.20:1401 80c8\n" }
{}

const GET: &[u8] =
    b"GET /?src=1&freq=12402&pol=v&msys=dvbs&sr=27500&fec=34&pids=all HTTP/1.1\r\n\r\n";

const SESSION: SessionId = SessionId { count: 1, word: 10 };

const CLIENT_WORDS: &[u8] = b" 192.168.1.20 0000000a11223344ffff ";

// Returns a line of a kind, from the client of the worked rows, with a text in digits.
fn line_with(rt: &impl Abort, alloc: Global, kind: &[u8], text: &[u8]) -> Vec<u8> {
    let digits = hex::encode(alloc, text).expect(rt, "out of memory");
    given(
        rt,
        joined(alloc, &[kind, CLIENT_WORDS, digits.as_str().as_bytes()]),
    )
}

// Reads a line of a kind, from the client of the worked rows, with a text in digits.
fn read_text(rt: &impl Abort, alloc: Global, kind: &[u8], text: &[u8]) -> Line {
    let line = line_with(rt, alloc, kind, text);
    let mut framer = Framer::make(alloc).expect(rt, "out of memory");
    read_line(&line, &mut framer)
}

// Returns the request of an RTSP line with this text.
fn request_in(rt: &impl Abort, alloc: Global, text: &[u8]) -> Option<Request> {
    match read_text(rt, alloc, b"rtsp", text) {
        Line::Event(
            Event::Request {
                peer,
                draw,
                request,
            },
        ) => {
            let right = peer == CLIENT && draw == DRAW;
            if right { Some(request) } else { None }
        }
        _ => None,
    }
}

// Returns the request of an HTTP line with this text.
fn get_in(rt: &impl Abort, alloc: Global, text: &[u8]) -> Option<HttpRequest> {
    match read_text(rt, alloc, b"http", text) {
        Line::Event(Event::Get { request, .. }) => Some(request),
        _ => None,
    }
}

// What a line says that has no message and no packet.
#[derive(Clone, Copy, Debug, PartialEq)]
enum Said {
    Skip,
    Tick(u64),
    Ask(u16),
    Ended(u16, u64),
    Stop,
    Pull(SessionId),
    Close(SessionId),
    Packet(u16, u64),
    Wrong,
    More,
}

fn said_by(event: &Event) -> Said {
    match event {
        Event::Tick { now } => Said::Tick(*now),
        Event::Ask { front } => Said::Ask(*front),
        Event::Ended { front, tune } => Said::Ended(*front, *tune),
        Event::Stop => Said::Stop,
        Event::Pull { session } => Said::Pull(*session),
        Event::Close { session } => Said::Close(*session),
        Event::Packet { front, tune, .. } => Said::Packet(*front, *tune),
        _ => Said::More,
    }
}

fn line_says(line: &[u8], framer: &mut Framer) -> Said {
    match read_line(line, framer) {
        Line::Skip => Said::Skip,
        Line::Wrong => Said::Wrong,
        Line::Event(event) => said_by(&event),
    }
}

const LINES: &[(&str, Said)] = &[
    ("", Said::Skip),
    ("# tick", Said::Skip),
    ("tick 59999", Said::Tick(59999)),
    ("ask 1", Said::Ask(1)),
    ("ended 1 2", Said::Ended(1, 2)),
    ("stop", Said::Stop),
    (
        "pull 000000010000000a",
        Said::Pull(SessionId { count: 1, word: 10 }),
    ),
    (
        "close 000000020000000b",
        Said::Close(SessionId { count: 2, word: 11 }),
    ),
    ("tik 5", Said::Wrong),
    ("tick", Said::Wrong),
    ("tick ", Said::Wrong),
    ("tick  5", Said::Wrong),
    ("tick 5 ", Said::Wrong),
    ("tick 5\r", Said::Wrong),
    ("tick 18446744073709551616", Said::Wrong),
    ("Tick 5", Said::Wrong),
    (" stop", Said::Wrong),
    ("stop now", Said::Wrong),
    ("ask 65536", Said::Wrong),
    ("ended 1", Said::Wrong),
    ("pull 1", Said::Wrong),
    ("close 000000010000000A", Said::Wrong),
    ("packet 1 1 47", Said::Wrong),
    ("rtsp 192.168.1.20 0000000a11223344ffff", Said::Wrong),
    ("rtsp 192.168.1.20 0000000a11223344ffff ", Said::Wrong),
    ("rtsp 192.168.1 0000000a11223344ffff 61", Said::Wrong),
    ("\r", Said::Wrong),
];

fn check_lines(rt: &impl Abort, framer: &mut Framer, rows: &[(&str, Said)]) {
    for (line, wanted) in rows {
        check(rt, line, line_says(line.as_bytes(), framer), *wanted);
    }
}

#[test]
fn lines_of_each_kind_are_read_and_others_are_wrong(rt: HostRuntime) {
    let mut framer = Framer::make(rt.alloc()).expect(&rt, "out of memory");
    check_lines(&rt, &mut framer, LINES);
}

// The first three and the last three bytes of a packet.
type Ends = ([u8; 3], [u8; 3]);

// What a packet's line says, the number of the first wrong line of a script that is this line, and
// the ends of its packet: None if the line isn't a packet's by its words, and Some(None) if its
// digits are no packet's.
type Seen = (Said, Option<u64>, Option<Option<Ends>>);

const PACKET: &[u8] = b"packet 1 1 ";

const WHOLE_PACKET: Parts = &[(PACKET, 1), (b"470010", 1), (b"00", 185)];

const WRONG_PACKET: Seen = (Said::Wrong, Some(1), Some(None));

// Packets' lines with a number of bytes.
const PACKETS: &[(&str, Parts, Seen)] = &[
    (
        "188 bytes",
        WHOLE_PACKET,
        (
            Said::Packet(1, 1),
            None,
            Some(Some(([0x47, 0x00, 0x10], [0x00, 0x00, 0x00]))),
        ),
    ),
    (
        "187 bytes",
        &[(PACKET, 1), (b"470010", 1), (b"00", 184)],
        WRONG_PACKET,
    ),
    (
        "189 bytes",
        &[(PACKET, 1), (b"470010", 1), (b"00", 186)],
        WRONG_PACKET,
    ),
    (
        "188 bytes that begin with 46",
        &[(PACKET, 1), (b"460010", 1), (b"00", 185)],
        WRONG_PACKET,
    ),
    (
        "188 bytes that begin with 74",
        &[(PACKET, 1), (b"740010", 1), (b"00", 185)],
        WRONG_PACKET,
    ),
    (
        "187 bytes and a letter that is no digit",
        &[(PACKET, 1), (b"470010", 1), (b"00", 184), (b"0g", 1)],
        WRONG_PACKET,
    ),
    (
        "188 bytes with digits of both cases",
        &[(PACKET, 1), (b"470010", 1), (b"00", 183), (b"aFB9", 1)],
        (
            Said::Packet(1, 1),
            None,
            Some(Some(([0x47, 0x00, 0x10], [0x00, 0xaf, 0xb9]))),
        ),
    ),
];

fn ends_of(digits: &[u8]) -> Option<Ends> {
    let packet = read_packet(digits)?;
    let bytes = packet.bytes();
    Some((
        [bytes[0], bytes[1], bytes[2]],
        [bytes[185], bytes[186], bytes[187]],
    ))
}

// Returns the ends of the packet of a line that is a packet's by its words.
fn packet_ends(line: &[u8]) -> Option<Option<Ends>> {
    match Script::of(line).next_parts() {
        Some(EventParts::Packet { digits, .. }) => Some(ends_of(digits)),
        _ => None,
    }
}

fn check_packets(
    rt: &impl Abort,
    alloc: Global,
    framer: &mut Framer,
    rows: &[(&str, Parts, Seen)],
) {
    for (name, parts, wanted) in rows {
        let line = given(rt, repeated(alloc, parts));
        let said = line_says(&line, framer);
        let wrong = check_script(&line, framer);
        check(rt, name, (said, wrong, packet_ends(&line)), *wanted);
    }
}

#[test]
fn packets_have_188_bytes_and_begin_with_47(rt: HostRuntime) {
    let mut framer = Framer::make(rt.alloc()).expect(&rt, "out of memory");
    check_packets(&rt, rt.alloc(), &mut framer, PACKETS);
}

// Whether a SETUP is refused, its method, its CSeq, its ports and its frequency.
type Setup = (bool, Method, Option<u32>, Option<Ports>, Option<u32>);

fn setup_in(rt: &impl Abort, alloc: Global, text: &[u8]) -> Option<Setup> {
    let Some(setup) = request_in(rt, alloc, text) else {
        return None;
    };
    let refused = setup.refusal.is_some();
    let freq = setup.query.change.freq;
    Some((refused, setup.method, setup.cseq, setup.ports, freq))
}

#[test]
fn the_setup_of_the_worked_rows_is_read(rt: HostRuntime) {
    let ports = Ports {
        rtp: 1400,
        rtcp: 1401,
    };
    let wanted = (false, Method::Setup, Some(1), Some(ports), Some(11361750));
    let setup = setup_in(&rt, rt.alloc(), SETUP);
    check(&rt, "SETUP", setup, Some(wanted));
}

const PLAY: &[u8] = b"PLAY rtsp://192.168.1.10/stream=1 RTSP/1.0\r\n\
    CSeq: 2\r\n\
    Session: 000000010000000a\r\n\r\n";

// Returns the method, the stream and the session of a request.
fn play_in(
    rt: &impl Abort,
    alloc: Global,
    text: &[u8],
) -> Option<(Method, Option<u16>, SessionName)> {
    let Some(play) = request_in(rt, alloc, text) else {
        return None;
    };
    Some((play.method, play.stream, play.session))
}

#[test]
fn the_play_of_the_worked_rows_is_read(rt: HostRuntime) {
    let wanted = (Method::Play, Some(1), SessionName::Named(SESSION));
    let play = play_in(&rt, rt.alloc(), PLAY);
    check(&rt, "PLAY", play, Some(wanted));
}

// Returns whether a GET is refused, and its frequency.
fn frequency_in(rt: &impl Abort, alloc: Global, text: &[u8]) -> Option<(bool, Option<u32>)> {
    let Some(get) = get_in(rt, alloc, text) else {
        return None;
    };
    let freq = get.query.change.freq;
    Some((get.refusal.is_some(), freq))
}

#[test]
fn the_get_of_the_worked_rows_is_read(rt: HostRuntime) {
    let get = frequency_in(&rt, rt.alloc(), GET);
    check(&rt, "GET", get, Some((false, Some(12402000))));
}

// What a text comes to: one message, or what is broken or too long at its first message. None if
// it is neither.
type Found = Option<Result<(), Break>>;

// Returns what a text comes to in an RTSP line.
fn found_over_rtsp(rt: &impl Abort, alloc: Global, text: &[u8]) -> Found {
    let Some(request) = request_in(rt, alloc, text) else {
        return None;
    };
    match request.refusal {
        Some(Refusal::Broken) => Some(Err(Break::Bad)),
        Some(Refusal::TooLong) => Some(Err(Break::TooLong)),
        _ => Some(Ok(())),
    }
}

// Returns what a text comes to in an HTTP line.
fn found_over_http(rt: &impl Abort, alloc: Global, text: &[u8]) -> Found {
    let Some(request) = get_in(rt, alloc, text) else {
        return None;
    };
    match request.refusal {
        Some(HttpRefusal::Broken) => Some(Err(Break::Bad)),
        Some(HttpRefusal::TooLong) => Some(Err(Break::TooLong)),
        _ => Some(Ok(())),
    }
}

const HEAD: &[u8] = b"OPTIONS * RTSP/1.0\r\nCSeq: 1\r\n";

const LONGEST: &[u8] = b"Content-Length: 4096\r\n\r\n";

// Texts, and what they come to over RTSP and over HTTP.
const TEXTS: &[(&str, Parts, Found)] = &[
    ("one message", &[(OPTIONS, 1)], Some(Ok(()))),
    (
        "an end of a line before",
        &[(b"\r\n", 1), (OPTIONS, 1)],
        None,
    ),
    (
        "an end of a line behind",
        &[(OPTIONS, 1), (b"\r\n", 1)],
        None,
    ),
    ("a line feed behind", &[(OPTIONS, 1), (b"\n", 1)], None),
    ("two messages", &[(OPTIONS, 2)], None),
    ("a letter behind", &[(OPTIONS, 1), (b"x", 1)], None),
    ("a beginning", &[(HEAD, 1)], None),
    ("ends of lines", &[(b"\r\n", 2)], None),
    ("no text", &[], None),
    (
        "no message",
        &[(b"hello\r\n\r\n", 1)],
        Some(Err(Break::Bad)),
    ),
    (
        "no message between others",
        &[(b"\r\n\n\r\nhello\r\n\r\n", 1), (OPTIONS, 1)],
        Some(Err(Break::Bad)),
    ),
    ("many letters", &[(b"a", 30000)], Some(Err(Break::Bad))),
    ("letters that may go on", &[(b"a", 8191)], None),
    ("many ends of lines", &[(b"\n", 30000)], None),
    (
        "a body of 4096 bytes",
        &[(HEAD, 1), (LONGEST, 1), (b"\n", 4096)],
        Some(Ok(())),
    ),
    (
        "a body that isn't whole",
        &[(HEAD, 1), (LONGEST, 1), (b"\n", 4095)],
        None,
    ),
    (
        "a byte behind a body",
        &[(HEAD, 1), (LONGEST, 1), (b"\n", 4097)],
        None,
    ),
    (
        "a body of 4097 bytes",
        &[
            (b"\r\n", 1),
            (HEAD, 1),
            (b"Content-Length: 4097\r\n\r\n", 1),
            (b"\n", 8192),
        ],
        Some(Err(Break::TooLong)),
    ),
];

fn check_texts(rt: &impl Abort, alloc: Global, rows: &[(&str, Parts, Found)]) {
    for (name, parts, wanted) in rows {
        let text = given(rt, repeated(alloc, parts));
        let over_rtsp = found_over_rtsp(rt, alloc, &text);
        let over_http = found_over_http(rt, alloc, &text);
        check(rt, name, (over_rtsp, over_http), (*wanted, *wanted));
    }
}

#[test]
fn texts_say_one_thing(rt: HostRuntime) {
    check_texts(&rt, rt.alloc(), TEXTS);
}

// Scripts, and the number of the first wrong line of each.
const SCRIPTS: &[(&str, Option<u64>)] = &[
    ("", None),
    ("tick 1000\ntik 5\n", Some(2)),
    ("# two lines\n\nstop\ntick\nask\n", Some(4)),
    ("tick 5\r\n", Some(1)),
    ("ask 1\nstop", None),
    ("ask 1\nstop now", Some(2)),
];

fn check_scripts(rt: &impl Abort, framer: &mut Framer, rows: &[(&str, Option<u64>)]) {
    for (script, wrong) in rows {
        check(rt, script, check_script(script.as_bytes(), framer), *wrong);
    }
}

#[test]
fn first_wrong_line_is_told(rt: HostRuntime) {
    let mut framer = Framer::make(rt.alloc()).expect(&rt, "out of memory");
    check_scripts(&rt, &mut framer, SCRIPTS);
}

// What the next event of a script says.
fn next_said(script: &mut Script, framer: &mut Framer) -> Option<Said> {
    match script.next(framer) {
        Some(event) => Some(said_by(&event)),
        None => None,
    }
}

// The events of a script with a wrong line.
const EVENTS: &[(&str, Option<Said>)] = &[
    ("a tick", Some(Said::Tick(1000))),
    ("an ask", Some(Said::Ask(1))),
    ("a stop", Some(Said::Stop)),
    ("a wrong line", None),
    ("after a wrong line", None),
];

fn check_events(
    rt: &impl Abort,
    script: &mut Script,
    framer: &mut Framer,
    rows: &[(&str, Option<Said>)],
) {
    for (name, wanted) in rows {
        check(rt, name, next_said(script, framer), *wanted);
    }
}

#[test]
fn events_come_in_their_order(rt: HostRuntime) {
    let mut framer = Framer::make(rt.alloc()).expect(&rt, "out of memory");
    let mut script = Script::of(b"# a run\ntick 1000\n\nask 1\nstop\nask\ntick 1");
    check_events(&rt, &mut script, &mut framer, EVENTS);
}

// What a packet's parts say, which are wrong where their digits are no packet's.
fn said_by_packet(front: u16, tune: u64, digits: &[u8]) -> Said {
    match read_packet(digits) {
        Some(_) => Said::Packet(front, tune),
        None => Said::Wrong,
    }
}

// What parts say; of a message, that they are more.
fn said_by_parts(parts: &EventParts) -> Said {
    match parts {
        EventParts::Tick { now } => Said::Tick(*now),
        EventParts::Ask { front } => Said::Ask(*front),
        EventParts::Ended { front, tune } => Said::Ended(*front, *tune),
        EventParts::Stop => Said::Stop,
        EventParts::Pull { session } => Said::Pull(*session),
        EventParts::Close { session } => Said::Close(*session),
        EventParts::Packet {
            front,
            tune,
            digits,
        } => said_by_packet(*front, *tune, digits),
        EventParts::Wrong => Said::Wrong,
        _ => Said::More,
    }
}

// What the next parts of a script say.
fn next_parts_said(script: &mut Script) -> Option<Said> {
    match script.next_parts() {
        Some(parts) => Some(said_by_parts(&parts)),
        None => None,
    }
}

// The events of a script in parts.
const IN_PARTS: &[(&str, Option<Said>)] = &[
    ("a tick", Some(Said::Tick(1000))),
    ("an ask", Some(Said::Ask(1))),
    ("a wrong line", Some(Said::Wrong)),
    ("no line", None),
];

fn check_parts(rt: &impl Abort, script: &mut Script, rows: &[(&str, Option<Said>)]) {
    for (name, wanted) in rows {
        check(rt, name, next_parts_said(script), *wanted);
    }
}

#[test]
fn events_come_in_parts(rt: HostRuntime) {
    let mut script = Script::of(b"# a run\ntick 1000\n\nask 1\ntick\n");
    check_parts(&rt, &mut script, IN_PARTS);
}

// What requests are read into, one after another.
#[derive(Drop)]
struct Kept {
    framer: Framer,
    request: Request,
    get: HttpRequest,
}

// Tells whether an RTSP line says the same in parts and as a whole. The parts are read exactly if
// the line isn't wrong.
fn same_request(peer: Peer, draw: Draw, digits: &[u8], line: &[u8], kept: &mut Kept) -> bool {
    let reads = read_request(digits, &mut kept.framer, &mut kept.request);
    let line = read_line(line, &mut kept.framer);
    match &line {
        Line::Event(
            Event::Request {
                peer: by,
                draw: drawn,
                request,
            },
        ) => reads && peer == *by && draw == *drawn && kept.request == *request,
        Line::Wrong => !reads,
        _ => false,
    }
}

// Tells the same of an HTTP line.
fn same_get(peer: Peer, draw: Draw, digits: &[u8], line: &[u8], kept: &mut Kept) -> bool {
    let reads = read_get(digits, &mut kept.framer, &mut kept.get);
    let line = read_line(line, &mut kept.framer);
    match &line {
        Line::Event(
            Event::Get {
                peer: by,
                draw: drawn,
                request,
            },
        ) => reads && peer == *by && draw == *drawn && kept.get == *request,
        Line::Wrong => !reads,
        _ => false,
    }
}

// Tells whether a line says the same in parts and as a whole, of a packet all but its bytes.
fn is_same(line: &[u8], kept: &mut Kept) -> bool {
    match Script::of(line).next_parts() {
        Some(EventParts::Rtsp { peer, draw, digits }) => {
            same_request(peer, draw, digits, line, kept)
        }
        Some(EventParts::Http { peer, draw, digits }) => same_get(peer, draw, digits, line, kept),
        Some(parts) => said_by_parts(&parts) == line_says(line, &mut kept.framer),
        None => line_says(line, &mut kept.framer) == Said::Skip,
    }
}

const ADDING: &[u8] = b"PLAY rtsp://192.168.1.10/stream=1?addpids=100,200&delpids=16 RTSP/1.0\r\n\
    CSeq: 9\r\n\
    Session: 000000010000000a\r\n\r\n";

const SAME: &[&str] = &[
    "",
    "# stop",
    "tick 59999",
    "tick",
    "ended 1 2",
    "ended 2 1 ",
    "ask 65535",
    "ask 65536",
    "pull 000000010000000a",
    "close 000000010000000a",
    "close 000000010000000A",
    "stop",
    "stop ",
    "packet 1 1 47 00",
    "rtsp 192.168.1.20 0000000a11223344ffff 61 62",
    "http 192.168.1.20 0000000a11223344ffff 6",
];

const SAME_TEXTS: &[(&str, &[u8])] = &[
    ("SETUP", SETUP),
    ("PLAY", ADDING),
    ("GET", GET),
    ("OPTIONS", OPTIONS),
    ("no message", b"hello\r\n\r\n"),
    ("an end of a line", b"\r\n"),
];

fn keep(rt: &impl Abort, alloc: Global) -> Kept {
    Kept {
        framer: Framer::make(alloc).expect(rt, "out of memory"),
        request: Request::broken(Break::Bad),
        get: HttpRequest::broken(Break::Bad),
    }
}

// Asserts that lines say the same in parts and as a whole.
fn check_same(rt: &impl Abort, kept: &mut Kept, rows: &[&str]) {
    for line in rows {
        check(rt, line, is_same(line.as_bytes(), kept), true);
    }
}

// Asserts that the lines of both kinds with these texts say the same.
fn check_same_texts(rt: &impl Abort, alloc: Global, kept: &mut Kept, rows: &[(&str, &[u8])]) {
    for (name, text) in rows {
        let over_rtsp = is_same(&line_with(rt, alloc, b"rtsp", text), kept);
        let over_http = is_same(&line_with(rt, alloc, b"http", text), kept);
        check(rt, name, (over_rtsp, over_http), (true, true));
    }
}

#[test]
fn lines_say_the_same_in_parts_and_whole(rt: HostRuntime) {
    let packet = given(&rt, repeated(rt.alloc(), WHOLE_PACKET));
    let mut kept = keep(&rt, rt.alloc());
    check_same(&rt, &mut kept, SAME);
    check(&rt, "a packet", is_same(&packet, &mut kept), true);
    check_same_texts(&rt, rt.alloc(), &mut kept, SAME_TEXTS);
}

// Answers without a reply, and the lines of their entries after a line.
const SHORT: &[(Answer, &str)] = &[
    (Answer::Beat(Beat::Going), "going\ngoing\n"),
    (Answer::Beat(Beat::Stopping), "going\nstopping\n"),
    (
        Answer::Work(Work::Tune { mux: 1, tune: 1 }),
        "going\ntune 1 1\n",
    ),
    (Answer::Work(Work::Nothing), "going\nnothing\n"),
    (Answer::Work(Work::Stopping), "going\nstopping\n"),
    (Answer::Pulled(Pulled::Empty), "going\nempty\n"),
    (Answer::Pulled(Pulled::Gone), "going\ngone\n"),
    (Answer::Closed(Closed::Yes), "going\nclosed\n"),
    (Answer::Closed(Closed::Gone), "going\ngone\n"),
];

// Answers with the reply "RTSP".
const WITH_REPLY: &[(Answer, &str)] = &[
    (
        Answer::Replied(Replied {
            status: 200,
            closing: false,
        }),
        "going\nreply 200 0 52545350\n",
    ),
    (
        Answer::Replied(Replied {
            status: 400,
            closing: true,
        }),
        "going\nreply 400 1 52545350\n",
    ),
    (
        Answer::Get(GetAnswer::Started(SESSION)),
        "going\nstarted 000000010000000a 52545350\n",
    ),
    (
        Answer::Get(GetAnswer::Refused(404)),
        "going\nrefused 404 52545350\n",
    ),
    (Answer::Pulled(Pulled::Bytes(4)), "going\nbytes 52545350\n"),
];

// A beat with datagrams, which follow it in their order.
const WITH_DATAGRAMS: &[(Answer, &str)] = &[(
    Answer::Beat(Beat::Going),
    "going\ngoing\ndatagram 192.168.1.20:1400 8021ffff\ndatagram 192.168.1.21:65535 \n",
)];

// Asserts that entries with this output are printed so, after a line.
fn check_printed(rt: &impl Abort, alloc: Global, out: &Out, rows: &[(Answer, &str)]) {
    for (answer, lines) in rows {
        let mut text = Vec::from_slice(alloc, b"going\n").expect(rt, "out of memory");
        print_entry(answer, out, &mut text).expect(rt, "out of memory");
        check(rt, lines, text.as_slice(), lines.as_bytes());
    }
}

#[test]
fn entries_with_and_without_a_reply_are_printed(rt: HostRuntime) {
    let mut out = Out::make(rt.alloc()).expect(&rt, "out of memory");
    check_printed(&rt, rt.alloc(), &out, SHORT);
    out.write(b"RTSP");
    check_printed(&rt, rt.alloc(), &out, WITH_REPLY);
}

#[test]
fn datagrams_are_printed(rt: HostRuntime) {
    let mut out = Out::make(rt.alloc()).expect(&rt, "out of memory");
    out.begin(Address {
        ip: 0xc0a8_0114,
        port: 1400,
    });
    out.extend(b"\x80\x21\xff\xff");
    out.begin(Address {
        ip: 0xc0a8_0115,
        port: 65535,
    });
    check_printed(&rt, rt.alloc(), &out, WITH_DATAGRAMS);
}
