//! Requests out of whole messages, and the replies' texts.

ghost use Rattle.std.specs.Prelude.{◌≡◌, [], None, false, true};
ghost use Rattle.satip_rtsp.specs.Targets.{target_of};

use crate::checks::check;
use crate::framed::framer_at;
use satip_base::{Out, Ports, SessionId};
use satip_fixtures::PORTS;
use satip_frame::Break;
use satip_query::{QueryFault, RefusalBody};
use satip_rtsp::{
    Method, Refusal, Request, SessionName, Short, write_closing, write_describe, write_options,
    write_plain, write_play, write_setup, write_text, write_unsupported,
};
use satip_tune::Key;
use std::alloc::Global;
use std::process::Abort;

const SESSION: SessionId = SessionId { count: 1, word: 10 };

fn request_of(rt: &impl Abort, alloc: Global, text: &str) -> Request {
    let framer = framer_at(rt, alloc, text, text.as_bytes());
    Request::of(&framer.message().expect(rt, text))
}

// The request of a message with the number 4, this method and target, and these fields.
fn ask(rt: &impl Abort, alloc: Global, words: &str, fields: &str) -> Request {
    let text = format!(in alloc; "{words} RTSP/1.0\r\nCSeq: 4\r\n{fields}\r\n");
    request_of(rt, alloc, &text.expect(rt, "out of memory"))
}

#[test]
fn options_is_asked(rt: HostRuntime) {
    let text = "OPTIONS * RTSP/1.0\r\ncseq: 007\r\n\r\n";
    let request = request_of(&rt, rt.alloc(), text);
    check(&rt, "number", request.cseq, Some(7));
    check(&rt, "refusal", request.refusal, None);
    check(&rt, "method", request.method, Method::Options);
}

// Why a message is refused.
#[derive(Clone, Copy)]
enum Why {
    NoCseq,
    Version,
    Method,
    Target,
    /// A value of its query is out of range.
    Range(Key),
    /// It requires what begins with this text.
    Requires(&'static [u8]),
}

fn refusal_of(why: Why) -> Refusal {
    match why {
        Why::NoCseq => Refusal::NoCseq,
        Why::Version => Refusal::Version,
        Why::Method => Refusal::Method,
        Why::Target => Refusal::Target,
        Why::Range(key) => Refusal::Query(QueryFault::Range(key)),
        Why::Requires(kept) => Refusal::Require(Short::of(kept)),
    }
}

// Asserts why messages are refused.
fn check_refusals(rt: &impl Abort, alloc: Global, rows: &[(&str, Why)]) {
    for (text, why) in rows {
        let refusal = request_of(rt, alloc, text).refusal;
        check(rt, text, refusal, Some(refusal_of(*why)));
    }
}

// Messages with two faults, of which the first counts.
const FIRST_FAULTS: &[(&str, Why)] = &[
    ("PAUSE /x RTSP/2.0\r\n\r\n", Why::NoCseq),
    ("PAUSE / RTSP/2.0\r\nCSeq: 4294967296\r\n\r\n", Why::NoCseq),
    ("PAUSE / RTSP/2.0\r\nCSeq: 4294967295\r\n\r\n", Why::Version),
    (
        "play / RTSP/1.0\r\nCSeq: 4\r\nRequire: x\r\n\r\n",
        Why::Method,
    ),
    (
        "SETUP * RTSP/1.0\r\nCSeq: 4\r\nRequire: x\r\n\r\n",
        Why::Requires(b"x"),
    ),
    (
        "SETUP * RTSP/1.0\r\nCSeq: 4\r\nRequire:\r\nRequire: x\r\n\r\n",
        Why::Target,
    ),
    ("SETUP /x?pol=n RTSP/1.0\r\nCSeq: 4\r\n\r\n", Why::Target),
    (
        "PLAY /?pol=n&pol=h RTSP/1.0\r\nCSeq: 4\r\n\r\n",
        Why::Range(Key::Pol),
    ),
];

#[test]
fn first_refusal_counts(rt: HostRuntime) {
    check_refusals(&rt, rt.alloc(), FIRST_FAULTS);
}

// Methods and targets, and the streams that the targets name.
const STREAMS: &[(&str, Option<u16>)] = &[
    ("OPTIONS rtsp://h", None),
    ("DESCRIBE rtsp://h?x", None),
    ("SETUP rtsp://h/", None),
    ("SETUP /", None),
    ("OPTIONS *", None),
    ("PLAY /stream=1", Some(1)),
    ("PLAY rtsp://h/stream=65535", Some(65535)),
    ("TEARDOWN /stream=1/", Some(1)),
    ("PLAY RTSP://H/stream=07?pids=all", Some(7)),
];

// Methods and targets that are none.
const NO_TARGETS: &[&str] = &[
    "PLAY /stream=65536",
    "PLAY stream=1",
    "PLAY rtsp:///stream=1",
    "PLAY ?pids=all",
    "DESCRIBE *",
    "OPTIONS /x",
    "OPTIONS **",
];

// Asserts which streams the targets of messages name.
fn check_streams(rt: &impl Abort, alloc: Global, rows: &[(&str, Option<u16>)]) {
    for (words, stream) in rows {
        let request = ask(rt, alloc, words, "");
        let got = (request.refusal, request.stream);
        check(rt, words, got, (None, *stream));
    }
}

#[test]
fn targets_name_streams(rt: HostRuntime) {
    check_streams(&rt, rt.alloc(), STREAMS);
}

// Asserts that messages are refused because of their targets.
fn check_no_targets(rt: &impl Abort, alloc: Global, rows: &[&str]) {
    for words in rows {
        let refusal = ask(rt, alloc, words, "").refusal;
        check(rt, words, refusal, Some(Refusal::Target));
    }
}

#[test]
fn other_targets_are_refused(rt: HostRuntime) {
    check_no_targets(&rt, rt.alloc(), NO_TARGETS);
}

// No method's target is the empty text.
#[tactic(auto, unfolding(satip_rtsp::specs::Targets::target_of, satip_rtsp::specs::Targets::stream_in, satip_frame::specs::Origins::after_front))]
fn no_target_is_empty()
    ensures of_a_stream { target_of false [] ≡ None }
    ensures of_the_server { target_of true [] ≡ None }
{}

// Messages with two faults, of which that at the earlier place counts, whatever comes first in the
// text.
const EARLIER_FAULTS: &[(&str, Why)] = &[
    (
        "TEARDOWN /x RTSP/1.0\r\nRequire: y\r\nCSeq: 4\r\n\r\n",
        Why::Requires(b"y"),
    ),
    ("TEARDOWN * RTSP/1.1\r\nCSeq: 4\r\n\r\n", Why::Version),
    (
        "DESCRIBE * RTSP/1.0\r\nRequire: y\r\nCSeq: x\r\n\r\n",
        Why::NoCseq,
    ),
    (
        "DESCRIBE /x RTSP/1.0\r\nCSeq: 4\r\nRequire: y\r\n\r\n",
        Why::Requires(b"y"),
    ),
    (
        "PLAY /stream=x?pids=8192 RTSP/1.0\r\nCSeq: 4\r\n\r\n",
        Why::Target,
    ),
    (
        "OPTIONS /x RTSP/1.0\r\nRequire: y\r\nCSeq: 4\r\n\r\n",
        Why::Requires(b"y"),
    ),
    (
        "SETUP /?pids=8192&fe=0 RTSP/1.0\r\nCSeq: 4\r\n\r\n",
        Why::Range(Key::Pids),
    ),
];

#[test]
fn earlier_place_counts_for_each_method(rt: HostRuntime) {
    check_refusals(&rt, rt.alloc(), EARLIER_FAULTS);
}

// Of what a message requires 128 bytes are kept.
#[test]
fn long_requirement_is_cut(rt: HostRuntime) {
    let text = "OPTIONS * RTSP/1.0\r\n\
        CSeq: 4\r\n\
        Require: aaaaaaaaaaaaaaaaaaaaaaaaaaaaaaaaaaaaaaaaaaaaaaaaaaaaaaaaaaaaaaaaaaaaaaaaaaaaaaaaaa\
        aaaaaaaaaaaaaaaaaaaaaaaaaaaaaaaaaaaaaaaaaaaaaab\r\n\r\n";
    let kept = Refusal::Require(Short::of(&[b'a'; 128]));
    let request = request_of(&rt, rt.alloc(), text);
    check(&rt, "refusal", request.refusal, Some(kept));
}

// Fields of a SETUP, and the ports that they ask for.
const TRANSPORTS: &[(&str, Option<Ports>)] = &[
    (
        "Transport: RTP/AVP;unicast;client_port=0-1 , \
        rtp/avp/udp ;\tUNICAST; Client_Port=65535-1,x\r\n",
        Some(Ports {
            rtp: 65535,
            rtcp: 1,
        }),
    ),
    (
        "Transport: RTP/AVP;client_port=65534;client_port=1;unicast\r\n",
        Some(Ports {
            rtp: 65534,
            rtcp: 65535,
        }),
    ),
    ("Transport: RTP/AVP;unicast;client_port=65535\r\n", None),
    ("Transport: RTP/AVP;unicast;client_port=1400-\r\n", None),
    ("Transport: RTP/AVP;multicast;client_port=2\r\n", None),
    (
        "Transport: RTP/AVP/TCP;unicast;client_port=2,RTP/AVP/UDP;unicast;client_port=3\r\n",
        Some(Ports { rtp: 3, rtcp: 4 }),
    ),
    (
        "Transport: RTP/AVP;unicast;client_port=1400-1401\r\n\
        Transport: RTP/AVP;unicast;client_port=8\r\n",
        Some(Ports {
            rtp: 1400,
            rtcp: 1401,
        }),
    ),
    (
        "Transport: RTP/AVP;unicast;client_port=7-7\r\n",
        Some(Ports { rtp: 7, rtcp: 7 }),
    ),
    ("Transport: RTP/AVP;client_port=2-3\r\n", None),
    ("", None),
];

// Asserts which ports SETUPs ask for.
fn check_ports(rt: &impl Abort, alloc: Global, rows: &[(&str, Option<Ports>)]) {
    for (fields, ports) in rows {
        let request = ask(rt, alloc, "SETUP /", fields);
        check(rt, fields, request.ports, *ports);
    }
}

#[test]
fn transports_give_ports(rt: HostRuntime) {
    check_ports(&rt, rt.alloc(), TRANSPORTS);
    let fields = "Transport: RTP/AVP;unicast;client_port=2\r\n";
    check(
        &rt,
        "a PLAY",
        ask(&rt, rt.alloc(), "PLAY /", fields).ports,
        None,
    );
}

// Fields of a PLAY, and how they name its session.
const SESSIONS: &[(&str, SessionName)] = &[
    ("", SessionName::Absent),
    (
        "Session: 000000010000000a\t; timeout=60\r\n",
        SessionName::Named(SESSION),
    ),
    ("Session: 000000010000000A\r\n", SessionName::Other),
    ("Session: 0000000010000000a\r\n", SessionName::Other),
    ("Session: 00000001000000a\r\n", SessionName::Other),
    ("Session:\r\n", SessionName::Other),
    (
        "Session: 000000010000000a\r\nSession: 000000020000000b\r\n",
        SessionName::Named(SESSION),
    ),
];

// Asserts how PLAYs name their sessions.
fn check_sessions(rt: &impl Abort, alloc: Global, rows: &[(&str, SessionName)]) {
    for (fields, session) in rows {
        let request = ask(rt, alloc, "PLAY /", fields);
        check(rt, fields, request.session, *session);
    }
}

#[test]
fn sessions_are_named(rt: HostRuntime) {
    check_sessions(&rt, rt.alloc(), SESSIONS);
}

// The replies whose texts are looked at.
#[derive(Clone, Copy)]
enum Reply {
    Options,
    OptionsOfSession,
    Bad,
    TooLong,
    NotImplemented,
    Setup,
    Play,
    Describe,
    NotOwner,
    CheckSyntax,
    OutOfRange,
    NoMoreFrontends,
    Unsupported,
}

// The host 192.168.1.10.
const ADDRESS: u32 = 3232235786;

// Writes a reply in place of what was written before.
#[tactic(auto, using(satip_rtsp::proofs::ReplyLemmas::reply_bounds))]
fn write_reply(reply: Reply, out: &mut Out) {
    out.clear();
    match reply {
        Reply::Options => write_options(Some(1), None, out),
        Reply::OptionsOfSession => write_options(None, Some(SESSION), out),
        Reply::Bad => write_closing(Break::Bad, out),
        Reply::TooLong => write_closing(Break::TooLong, out),
        Reply::NotImplemented => write_plain(Some(4294967295), 501, out),
        Reply::Setup => write_setup(Some(2), SESSION, 60, PORTS, 1, out),
        Reply::Play => write_play(Some(3), SESSION, ADDRESS, 1, 65535, out),
        Reply::Describe => write_describe(Some(4), ADDRESS, 189, out),
        Reply::NotOwner => write_text(Some(5), 403, RefusalBody::NotOwner, out),
        Reply::CheckSyntax => write_text(None, 400, RefusalBody::CheckSyntax(Key::Pol), out),
        Reply::OutOfRange => write_text(Some(8), 403, RefusalBody::OutOfRange(Key::Pids), out),
        Reply::NoMoreFrontends => write_text(Some(9), 503, RefusalBody::NoMoreFrontends, out),
        Reply::Unsupported => write_unsupported(Some(6), &Short::of(b"a.b"), out),
    }
}

const REPLIES: &[(Reply, &str)] = &[
    (
        Reply::Options,
        "RTSP/1.0 200 OK\r\n\
        CSeq: 1\r\n\
        Public: OPTIONS, DESCRIBE, SETUP, PLAY, TEARDOWN\r\n\r\n",
    ),
    (
        Reply::OptionsOfSession,
        "RTSP/1.0 200 OK\r\n\
        Public: OPTIONS, DESCRIBE, SETUP, PLAY, TEARDOWN\r\n\
        Session: 000000010000000a\r\n\r\n",
    ),
    (
        Reply::Bad,
        "RTSP/1.0 400 Bad Request\r\nConnection: close\r\n\r\n",
    ),
    (
        Reply::TooLong,
        "RTSP/1.0 413 Request Entity Too Large\r\nConnection: close\r\n\r\n",
    ),
    (
        Reply::NotImplemented,
        "RTSP/1.0 501 Not Implemented\r\nCSeq: 4294967295\r\n\r\n",
    ),
    (
        Reply::Setup,
        "RTSP/1.0 200 OK\r\n\
        CSeq: 2\r\n\
        Session: 000000010000000a;timeout=60\r\n\
        Transport: RTP/AVP;unicast;client_port=1400-1401\r\n\
        com.ses.streamID: 1\r\n\r\n",
    ),
    (
        Reply::Play,
        "RTSP/1.0 200 OK\r\n\
        CSeq: 3\r\n\
        Session: 000000010000000a\r\n\
        RTP-Info: url=rtsp://192.168.1.10/stream=1;seq=65535\r\n\r\n",
    ),
    (
        Reply::Describe,
        "RTSP/1.0 200 OK\r\n\
        CSeq: 4\r\n\
        Content-Type: application/sdp\r\n\
        Content-Base: rtsp://192.168.1.10/\r\n\
        Content-Length: 189\r\n\r\n",
    ),
    (
        Reply::NotOwner,
        "RTSP/1.0 403 Forbidden\r\n\
        CSeq: 5\r\n\
        Content-Type: text/parameters\r\n\
        Content-Length: 18\r\n\r\n\
        Not-Owner:stream\r\n",
    ),
    (
        Reply::CheckSyntax,
        "RTSP/1.0 400 Bad Request\r\n\
        Content-Type: text/parameters\r\n\
        Content-Length: 18\r\n\r\n\
        Check-Syntax:pol\r\n",
    ),
    (
        Reply::OutOfRange,
        "RTSP/1.0 403 Forbidden\r\n\
        CSeq: 8\r\n\
        Content-Type: text/parameters\r\n\
        Content-Length: 19\r\n\r\n\
        Out-of-Range:pids\r\n",
    ),
    (
        Reply::NoMoreFrontends,
        "RTSP/1.0 503 Service Unavailable\r\n\
        CSeq: 9\r\n\
        Content-Type: text/parameters\r\n\
        Content-Length: 19\r\n\r\n\
        No-More:frontends\r\n",
    ),
    (
        Reply::Unsupported,
        "RTSP/1.0 551 Option not supported\r\nCSeq: 6\r\nUnsupported: a.b\r\n\r\n",
    ),
];

// Asserts the texts of replies.
fn check_replies(rt: &impl Abort, out: &mut Out, rows: &[(Reply, &str)]) {
    for (reply, text) in rows {
        write_reply(*reply, out);
        check(rt, text, out.reply(), text.as_bytes());
    }
}

#[test]
fn replies_have_these_texts(rt: HostRuntime) {
    let mut out = Out::make(rt.alloc()).expect(&rt, "out of memory");
    check_replies(&rt, &mut out, REPLIES);
}
