//! Replies, and beginnings of them.
use crate::checks::check;
use satip_client::{ReplyRead, read_reply};
use std::process::Abort;
use std::test::Fail;

const SETUP: &[u8; 85] =
    b"RTSP/1.0 200\r\nCSeq: 1\nSession: a;timeout=5\ncom.ses.streamID: 17\ncontent-length:3\n\nabc";

fn is_more(text: &[u8]) -> bool {
    matches!(&read_reply(text), ReplyRead::More)
}

fn is_bad(text: &[u8]) -> bool {
    matches!(&read_reply(text), ReplyRead::Bad)
}

// Asserts that each beginning of a text is the beginning of a reply.
fn check_begun(rt: &impl Abort, text: &[u8]) {
    for cut in 0..text.len() {
        check(rt, "cut", (cut, is_more(&text[..cut])), (cut, true));
    }
}

#[test]
fn a_reply_is_awaited_until_it_is_whole(rt: HostRuntime) {
    check_begun(&rt, SETUP);
}

#[test]
fn a_whole_reply_is_read(rt: HostRuntime) -> Result<(), Fail> {
    let ReplyRead::Reply(view) = read_reply(SETUP) else {
        return Err(Fail::from("no reply"));
    };
    let numbers = (view.length, view.status, view.timeout);
    check(&rt, "length, status, timeout", numbers, (85, 200, 5));
    check(
        &rt,
        "cseq, stream",
        (view.cseq, view.stream),
        (Some(1), Some(17)),
    );
    check(&rt, "session", view.session, Some(b"a"));
    Ok(())
}

#[test]
fn a_reply_may_say_little(rt: HostRuntime) -> Result<(), Fail> {
    let text = b"RTSP/1.0 454\nSession: ;timeout=0\n\nRTSP/1.0 200";
    let ReplyRead::Reply(view) = read_reply(text) else {
        return Err(Fail::from("no reply"));
    };
    let numbers = (view.length, view.status, view.timeout);
    check(&rt, "length, status, timeout", numbers, (34, 454, 60));
    check(&rt, "cseq, stream", (view.cseq, view.stream), (None, None));
    check(&rt, "session", view.session, None);
    Ok(())
}

const BAD: &[&str] = &[
    "RTSP/1.1",
    "\r\nRTSP/1.0 200 OK\r\n",
    "RTSP/1.0 20x",
    "RTSP/1.0 2000",
    "RTSP/1.0 200 O\rK",
    "RTSP/1.0 200 OK\n:",
    "RTSP/1.0 200 OK\na b",
    "RTSP/1.0 200 OK\nContent-Length: 4097",
    "RTSP/1.0 200 OK\nContent-Length: 1x",
    "RTSP/1.0 200 OK\nContent-Length:\n",
    "RTSP/1.0 200 OK\nContent-Length: 1\ncontent-length:",
];

const BEGUN: &[&str] = &[
    "RTSP/1.0 200 OK\nContent-Length: 4096",
    "RTSP/1.0 200 OK\nContent-Length: 1\ncontent-length",
];

// Asserts whether texts are bad, or else begin replies.
fn check_texts(rt: &impl Abort, rows: &[&str], bad: bool) {
    for text in rows {
        let bytes = text.as_bytes();
        check(rt, text, (is_bad(bytes), is_more(bytes)), (bad, !bad));
    }
}

#[test]
fn what_becomes_no_reply_is_bad(rt: HostRuntime) {
    check_texts(&rt, BAD, true);
    check_texts(&rt, BEGUN, false);
}

#[test]
fn a_head_has_8192_bytes_at_most(rt: HostRuntime) {
    let mut text = [b' '; 8192];
    text[..12].copy_from_slice(b"RTSP/1.0 200");
    check(&rt, "8190", is_more(&text[..8190]), true);
    check(&rt, "8191", is_bad(&text[..8191]), true);
    text[8190..].copy_from_slice(b"\n\n");
    check(&rt, "8192", (is_more(&text), is_bad(&text)), (false, false));
}
