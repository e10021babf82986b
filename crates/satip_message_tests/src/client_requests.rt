//! Requests as texts, and replies to them.
use crate::checks::check;
use satip_base::Want;
use satip_client::{Grant, Lease, Page, ReplyFault, ReplyRead, accept, grant_of, read_reply};
use std::alloc::Global;
use std::process::Abort;

const ADDRESS: &[u8; 15] = b"127.0.0.1:18554";

fn page(alloc: Global) -> Result<Page<'static>, Want> {
    Page::make(alloc, ADDRESS, b"src=1&freq=12402&pids=all")
}

#[test]
fn a_setup_has_these_bytes(rt: HostRuntime) {
    let mut page = page(rt.alloc()).expect(&rt, "out of memory");
    page.write_setup(65534);
    let text: &[u8] = b"SETUP rtsp://127.0.0.1:18554/?src=1&freq=12402&pids=all RTSP/1.0\r\n\
        CSeq: 1\r\n\
        Transport: RTP/AVP;unicast;client_port=65534-65535\r\n\r\n";
    check(&rt, "bytes", page.bytes(), text);
}

// A page with a request, which the next one replaces.
fn written_page(alloc: Global) -> Result<Page<'static>, Want> {
    let mut page = page(alloc)?;
    page.write_setup(65534);
    Ok(page)
}

// What a reply gave, with this stream.
fn lease(session: &[u8], stream: u16) -> Option<Lease> {
    Lease::of(&Grant {
        session,
        timeout: 60,
        stream,
    })
}

#[test]
fn a_play_has_these_bytes(rt: HostRuntime) {
    let mut page = written_page(rt.alloc()).expect(&rt, "out of memory");
    page.write_play(&lease(b"1a2b", 65535).expect(&rt, "lease"));
    let text: &[u8] =
        b"PLAY rtsp://127.0.0.1:18554/stream=65535 RTSP/1.0\r\nCSeq: 2\r\nSession: 1a2b\r\n\r\n";
    check(&rt, "bytes", page.bytes(), text);
}

#[test]
fn options_have_these_bytes(rt: HostRuntime) {
    let mut page = written_page(rt.alloc()).expect(&rt, "out of memory");
    page.write_options(&lease(b"1a2b", 7).expect(&rt, "lease"), 3);
    let text: &[u8] =
        b"OPTIONS rtsp://127.0.0.1:18554/ RTSP/1.0\r\nCSeq: 3\r\nSession: 1a2b\r\n\r\n";
    check(&rt, "bytes", page.bytes(), text);
}

#[test]
fn a_teardown_has_these_bytes(rt: HostRuntime) {
    let mut page = written_page(rt.alloc()).expect(&rt, "out of memory");
    page.write_teardown(&lease(b"1a2b", 0).expect(&rt, "lease"), 4294967295);
    let text: &[u8] = b"TEARDOWN rtsp://127.0.0.1:18554/stream=0 RTSP/1.0\r\n\
        CSeq: 4294967295\r\n\
        Session: 1a2b\r\n\r\n";
    check(&rt, "bytes", page.bytes(), text);
}

#[test]
fn the_longest_session_has_8192_bytes(rt: HostRuntime) {
    let longest = lease(&[b'a'; 8192], 7).expect(&rt, "lease");
    check(&rt, "session", longest.session().len(), 8192);
    let mut page = page(rt.alloc()).expect(&rt, "out of memory");
    page.write_teardown(&longest, 4294967295);
    check(&rt, "bytes", page.bytes().len(), 8274);
    check(&rt, "longer", lease(&[b'a'; 8193], 7).is_none(), true);
}

// What a reply to SETUP gives: the fault, or whether it is this grant.
fn grants(text: &[u8], session: &[u8], timeout: u32, stream: u16) -> Result<bool, ReplyFault> {
    match read_reply(text) {
        ReplyRead::Reply(view) => match grant_of(&view) {
            Ok(grant) => Ok(is_grant(&grant, session, timeout, stream)),
            Err(fault) => Err(fault),
        },
        ReplyRead::More | ReplyRead::Bad => Ok(false),
    }
}

fn is_grant(grant: &Grant, session: &[u8], timeout: u32, stream: u16) -> bool {
    grant.session == session && grant.timeout == timeout && grant.stream == stream
}

// Whether a reply accepts the request of this number.
fn accepts(text: &[u8], cseq: u32) -> Result<(), ReplyFault> {
    match read_reply(text) {
        ReplyRead::Reply(view) => accept(&view, cseq),
        ReplyRead::More | ReplyRead::Bad => Err(ReplyFault::Bad),
    }
}

const GRANTS: &[(&str, u32, Result<bool, ReplyFault>)] = &[
    (
        "RTSP/1.0 200 OK\nCSeq: 1\nSession: a;timeout=5\ncom.ses.streamID: 17\n\n",
        5,
        Ok(true),
    ),
    (
        "RTSP/1.0 200 OK\nCSeq: 1\nSession: a\n\n",
        60,
        Err(ReplyFault::Bad),
    ),
    (
        "RTSP/1.0 200 OK\nCSeq: 1\ncom.ses.streamID: 17\n\n",
        60,
        Err(ReplyFault::Bad),
    ),
    (
        "RTSP/1.0 503 No\nCSeq: 1\n\n",
        60,
        Err(ReplyFault::Refused(503)),
    ),
];

// Asserts what replies give, whose session is `a` and whose stream is 17.
fn check_grants(rt: &impl Abort, rows: &[(&str, u32, Result<bool, ReplyFault>)]) {
    for (text, timeout, granted) in rows {
        let got = grants(text.as_bytes(), b"a", *timeout, 17);
        check(rt, text, got, *granted);
    }
}

#[test]
fn a_reply_gives_a_session_and_a_stream(rt: HostRuntime) {
    check_grants(&rt, GRANTS);
}

const ACCEPTS: &[(&str, Result<(), ReplyFault>)] = &[
    ("RTSP/1.0 200 OK\nCSeq: 2\n\n", Ok(())),
    (
        "RTSP/1.0 454 No\nCSeq: 2\n\n",
        Err(ReplyFault::Refused(454)),
    ),
    ("RTSP/1.0 454 No\nCSeq: 3\n\n", Err(ReplyFault::Bad)),
    ("RTSP/1.0 200 OK\n\n", Err(ReplyFault::Bad)),
];

// Asserts which replies accept the request of the number 2.
fn check_accepts(rt: &impl Abort, rows: &[(&str, Result<(), ReplyFault>)]) {
    for (text, accepted) in rows {
        check(rt, text, accepts(text.as_bytes(), 2), *accepted);
    }
}

#[test]
fn a_reply_to_another_request_is_bad(rt: HostRuntime) {
    check_accepts(&rt, ACCEPTS);
}
