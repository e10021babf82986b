//! Facts about each event: its values are within their types.
ghost use Rattle.std.specs.Prelude.{◌<◌, ◌^◌, IfSome};
ghost use Rattle.satip_pids.specs.Pids.{IsPidList};
ghost use Rattle.satip_plain.specs.Values.{AreBytes, ArePidsGiven, ArePorts, IsChange, IsDraw, IsEvent, IsId, IsName, IsQuery, IsRefusal, IsRequest};

use crate::events::Event;
use satip_base::{Draw, Ports, SessionId};
use satip_pids::PidList;
use satip_query::{PidsGiven, Query};
use satip_rtsp::{Refusal, Request, SessionName};
use satip_tune::Change;

/// Gives a caller's proof the facts of each event: its numbers and bytes are within their types,
/// its PIDs are below 8192, and its packet is a transport packet.
pub fn known_event(event: &Event)
    ensures value { IsEvent event.now }
{
    match event {
        Event::Request {
            peer,
            draw,
            request,
        } => {
            let _ip = peer.ip;
            known_draw(*draw);
            known_request(request);
        }
        Event::Get {
            peer,
            draw,
            request,
        } => {
            let _ip = peer.ip;
            known_draw(*draw);
            known_query(&request.query);
        }
        Event::Tick { now } => {
            let _now = *now;
        }
        Event::Packet {
            front,
            tune,
            packet,
        } => {
            let _front = *front;
            let _tune = *tune;
            known_bytes(packet.bytes());
        }
        Event::Ended { front, tune } => {
            let _front = *front;
            let _tune = *tune;
        }
        Event::Ask { front } => {
            let _front = *front;
        }
        Event::Pull { session } => known_id(*session),
        Event::Close { session } => known_id(*session),
        Event::Stop => {}
    }
}

/// Gives a caller's proof that each of the bytes is below 256.
pub fn known_bytes(bytes: &[u8])
    ensures value { AreBytes bytes.now }
{
    let _bytes = bytes;
}

fn known_u8(number: Option<u8>)
    ensures value { IfSome number (λ n. n < 2 ^ 8) }
{
    match number {
        Some(_number) => {}
        None => {}
    }
}

fn known_u16(number: Option<u16>)
    ensures value { IfSome number (λ n. n < 2 ^ 16) }
{
    match number {
        Some(_number) => {}
        None => {}
    }
}

fn known_u32(number: Option<u32>)
    ensures value { IfSome number (λ n. n < 2 ^ 32) }
{
    match number {
        Some(_number) => {}
        None => {}
    }
}

fn known_id(id: SessionId)
    ensures value { IsId id }
{
    let _count = id.count;
    let _word = id.word;
}

fn known_draw(draw: Draw)
    ensures value { IsDraw draw }
{
    let _word = draw.word;
    let _ssrc = draw.ssrc;
    let _first = draw.first;
}

fn known_ports(ports: Option<Ports>)
    ensures value { IfSome ports ArePorts }
{
    match ports {
        Some(ports) => {
            let _rtp = ports.rtp;
            let _rtcp = ports.rtcp;
        }
        None => {}
    }
}

fn known_change(change: &Change)
    ensures value { IsChange change.now }
{
    known_u16(change.fe);
    known_u8(change.src);
    known_u32(change.freq);
    known_u32(change.sr);
}

fn known_list(list: &Option<PidList>)
    ensures value { IfSome list.now IsPidList }
{
    match list {
        Some(list) => {
            let _pids = list.as_slice();
        }
        None => {}
    }
}

fn known_pids(pids: &PidsGiven)
    ensures value { ArePidsGiven pids.now }
{
    match pids {
        PidsGiven::Absent => {}
        PidsGiven::All => {}
        PidsGiven::Empty => {}
        PidsGiven::List(list) => {
            let _pids = list.as_slice();
        }
    }
}

fn known_query(query: &Query)
    ensures value { IsQuery query.now }
{
    known_change(&query.change);
    known_pids(&query.pids);
    known_list(&query.addpids);
    known_list(&query.delpids);
}

fn known_refusal(refusal: &Option<Refusal>)
    ensures value { IfSome refusal.now IsRefusal }
{
    match refusal {
        Some(Refusal::Require(kept)) => {
            known_bytes(kept.bytes());
        }
        Some(Refusal::Broken) => {}
        Some(Refusal::TooLong) => {}
        Some(Refusal::NoCseq) => {}
        Some(Refusal::Version) => {}
        Some(Refusal::Method) => {}
        Some(Refusal::Target) => {}
        Some(Refusal::Query(_)) => {}
        None => {}
    }
}

fn known_name(name: SessionName)
    ensures value { IsName name }
{
    match name {
        SessionName::Named(id) => known_id(id),
        SessionName::Absent => {}
        SessionName::Other => {}
    }
}

fn known_request(request: &Request)
    ensures value { IsRequest request.now }
{
    known_u32(request.cseq);
    known_refusal(&request.refusal);
    known_u16(request.stream);
    known_name(request.session);
    known_query(&request.query);
    known_ports(request.ports);
}
