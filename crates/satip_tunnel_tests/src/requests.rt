//! Requests of the connections of a tunnel.

use satip_frame::Step;
use satip_rtsp::Request;
use satip_rtsp_interleaved::{Parter, request};
use std::alloc::Global;
use std::process::Abort;

/// Returns the request of a text that comes behind a report of a client.
pub fn asked(rt: &impl Abort, alloc: Global, text: &[u8]) -> Request {
    let mut parter = Parter::make(alloc).expect(rt, "out of memory");
    parter.feed(b"$\x01\x00\x04\x00\x00\x00\x00");
    parter.feed(text);
    match parter.next() {
        Step::Message => request(&parter.message().expect(rt, "message")),
        _ => rt.panic("no message"),
    }
}
