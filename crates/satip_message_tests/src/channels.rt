//! Requests and replies of a connection that carries the packets too, on the code.

use crate::checks::check;
use crate::framed::framer_at;
use satip_base::Ports;
use satip_base::limits::REPLY_BYTES;
use satip_frame::Break;
use satip_rtsp::Request;
use satip_rtsp_interleaved::{ChannelReply, interleaved, read_request, request};
use std::alloc::Global;
use std::process::Abort;

// The ports that a text asks for, which is one message.
fn ports_of(rt: &impl Abort, alloc: Global, text: &str) -> Option<Ports> {
    let framer = framer_at(rt, alloc, text, text.as_bytes());
    request(&framer.message().expect(rt, text)).ports
}

// The same, read over an older request.
fn ports_over(rt: &impl Abort, alloc: Global, text: &str) -> Option<Ports> {
    let framer = framer_at(rt, alloc, text, text.as_bytes());
    let mut into = Request::broken(Break::Bad);
    read_request(&framer.message().expect(rt, text), &mut into);
    into.ports
}

// What a reply is turned into; nothing where it is too long.
fn turned<'a>(told: &'a mut ChannelReply, reply: &[u8]) -> Option<&'a [u8]> {
    if reply.len() > REPLY_BYTES {
        return None;
    }
    told.turn(reply);
    Some(told.bytes())
}

#[test]
fn setup_asks_for_channels(rt: HostRuntime) {
    let text = "SETUP rtsp://h/?src=1 RTSP/1.0\r\n\
        CSeq: 1\r\n\
        Transport: RTP/AVP/TCP;unicast;interleaved=0-1\r\n\r\n";
    let wanted = Some(Ports { rtp: 1, rtcp: 2 });
    check(&rt, "ports", ports_of(&rt, rt.alloc(), text), wanted);
    check(&rt, "ports over", ports_over(&rt, rt.alloc(), text), wanted);
}

#[test]
fn setup_over_udp_and_play_ask_for_none(rt: HostRuntime) {
    let udp = "SETUP rtsp://h/?src=1 RTSP/1.0\r\n\
        CSeq: 1\r\n\
        Transport: RTP/AVP;unicast;client_port=1400-1401\r\n\r\n";
    check(&rt, udp, ports_of(&rt, rt.alloc(), udp), None);
    let play =
        "PLAY rtsp://h/ RTSP/1.0\r\nCSeq: 1\r\nTransport: RTP/AVP/TCP;interleaved=0-1\r\n\r\n";
    check(&rt, play, ports_of(&rt, rt.alloc(), play), None);
}

#[test]
fn setup_without_a_number_asks_for_none(rt: HostRuntime) {
    let text = "SETUP rtsp://h/ RTSP/1.0\r\nTransport: RTP/AVP/TCP;interleaved=0-1\r\n\r\n";
    check(&rt, text, ports_over(&rt, rt.alloc(), text), None);
}

#[test]
fn channels_may_fall(rt: HostRuntime) {
    let ports = interleaved(b"RTP/AVP/TCP;interleaved=8-3");
    check(&rt, "ports", ports, Some(Ports { rtp: 9, rtcp: 4 }));
}

#[test]
fn reply_to_setup_tells_channels(rt: HostRuntime) {
    let mut told = ChannelReply::make(rt.alloc()).expect(&rt, "out of memory");
    let reply = b"RTSP/1.0 200 OK\r\n\
        CSeq: 1\r\n\
        Session: 000000010000000a;timeout=60\r\n\
        Transport: RTP/AVP;unicast;client_port=1-256\r\n\
        com.ses.streamID: 1\r\n\r\n";
    let wanted: &[u8] = b"RTSP/1.0 200 OK\r\n\
        CSeq: 1\r\n\
        Session: 000000010000000a;timeout=60\r\n\
        Transport: RTP/AVP/TCP;unicast;interleaved=0-255\r\n\
        com.ses.streamID: 1\r\n\r\n";
    check(&rt, "reply", turned(&mut told, reply), Some(wanted));
}

#[test]
fn other_replies_stay(rt: HostRuntime) {
    let mut told = ChannelReply::make(rt.alloc()).expect(&rt, "out of memory");
    let play: &[u8] = b"RTSP/1.0 200 OK\r\n\
        CSeq: 2\r\n\
        Session: 000000010000000a\r\n\
        RTP-Info: url=rtsp://192.168.1.10/stream=1;seq=65535\r\n\r\n";
    check(&rt, "play", turned(&mut told, play), Some(play));
    let body: &[u8] = b"RTSP/1.0 200 OK\r\n\r\nTransport: RTP/AVP;unicast;client_port=1-2\r\n\r\n";
    check(&rt, "body", turned(&mut told, body), Some(body));
    check(&rt, "nothing", turned(&mut told, b""), Some(b""));
}
