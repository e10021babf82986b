//! Requests out of whole messages, and the heads' texts.
use crate::checks::check;
use crate::framed::framer_at;
use satip_base::Out;
use satip_frame::Break;
use satip_http::{HttpRefusal, HttpRequest, write_refusal, write_start};
use satip_query::{QueryFault, RefusalBody};
use satip_tune::Key;
use std::alloc::Global;
use std::process::Abort;

fn request_of(rt: &impl Abort, alloc: Global, text: &str) -> HttpRequest {
    let framer = framer_at(rt, alloc, text, text.as_bytes());
    HttpRequest::of(&framer.message().expect(rt, text))
}

const QUERIES: &[&str] = &[
    "GET /?src=2 HTTP/1.1\r\n\r\n",
    "GET ?src=2 HTTP/1.0\r\n\r\n",
    "GET HTTP://h/?src=2 HTTP/1.1\r\n\r\n",
    "GET http://h?src=2 HTTP/1.1\r\n\r\n",
];

// Asserts that messages ask for the source 2.
fn check_queries(rt: &impl Abort, alloc: Global, rows: &[&str]) {
    for text in rows {
        let request = request_of(rt, alloc, text);
        let src = request.query.change.src;
        check(rt, text, (request.refusal, src), (None, Some(2)));
    }
}

#[test]
fn queries_are_read(rt: HostRuntime) {
    check_queries(&rt, rt.alloc(), QUERIES);
}

const REFUSALS: &[(&str, HttpRefusal)] = &[
    ("POST /x HTTP/2.0\r\n\r\n", HttpRefusal::Version),
    ("POST /x HTTP/1.1\r\n\r\n", HttpRefusal::Method),
    ("GET http://h HTTP/1.1\r\n\r\n", HttpRefusal::Target),
    ("GET http:///?src=2 HTTP/1.1\r\n\r\n", HttpRefusal::Target),
    ("GET /x HTTP/1.1\r\n\r\n", HttpRefusal::NotFound),
    ("GET / HTTP/1.1\r\n\r\n", HttpRefusal::NotFound),
    ("GET //?src=2 HTTP/1.1\r\n\r\n", HttpRefusal::NotFound),
    (
        "GET /?src=0 HTTP/1.1\r\n\r\n",
        HttpRefusal::Query(QueryFault::Range(Key::Src)),
    ),
];

// Asserts why messages are refused.
fn check_refusals(rt: &impl Abort, alloc: Global, rows: &[(&str, HttpRefusal)]) {
    for (text, refusal) in rows {
        let got = request_of(rt, alloc, text).refusal;
        check(rt, text, got, Some(*refusal));
    }
}

#[test]
fn first_refusal_counts(rt: HostRuntime) {
    check_refusals(&rt, rt.alloc(), REFUSALS);
}

#[test]
fn what_is_no_message_is_refused(rt: HostRuntime) {
    let bad = HttpRequest::broken(Break::Bad).refusal;
    check(&rt, "bad", bad, Some(HttpRefusal::Broken));
    let long = HttpRequest::broken(Break::TooLong).refusal;
    check(&rt, "too long", long, Some(HttpRefusal::TooLong));
}

#[test]
#[tactic(auto, using(satip_http::proofs::HeadLemmas::head_bounds))]
fn a_start_has_64_bytes(rt: HostRuntime) {
    let mut out = Out::make(rt.alloc()).expect(&rt, "out of memory");
    write_start(&mut out);
    check(&rt, "length", out.reply().len(), 64);
    let text = b"HTTP/1.1 200 OK\r\nContent-Type: video/mp2t\r\nConnection: close\r\n\r\n";
    check(&rt, "head", out.reply(), text.as_slice());
}

#[test]
#[tactic(auto, using(satip_http::proofs::HeadLemmas::head_bounds))]
fn a_refusal_may_have_a_body(rt: HostRuntime) {
    let mut out = Out::make(rt.alloc()).expect(&rt, "out of memory");
    write_refusal(503, Some(RefusalBody::NoMoreFrontends), &mut out);
    let text = b"HTTP/1.1 503 Service Unavailable\r\n\
        Connection: close\r\n\
        Content-Type: text/parameters\r\n\
        Content-Length: 19\r\n\r\n\
        No-More:frontends\r\n";
    check(&rt, "head", out.reply(), text.as_slice());
}

#[test]
#[tactic(auto, using(satip_http::proofs::HeadLemmas::head_bounds))]
fn a_refusal_may_be_a_head_alone(rt: HostRuntime) {
    let mut out = Out::make(rt.alloc()).expect(&rt, "out of memory");
    write_refusal(505, None, &mut out);
    let text = b"HTTP/1.1 505 HTTP Version Not Supported\r\nConnection: close\r\n\r\n";
    check(&rt, "head", out.reply(), text.as_slice());
}
