//! The server of the examples: two front ends that reach the first position, and two multiplexes.
ghost use Rattle.std.specs.Prelude.{[], IfOk};
ghost use Rattle.satip_core.specs.Serving.{StandsAfter};

use crate::solo::Solo;
use satip_base::{Entry, Out, SessionId};
use satip_core::Server;
use satip_fixtures::texts::first_query;
use satip_fixtures::{CLIENT, DRAW, FIRST_MUX, PORTS, SECOND_MUX, config_with, packet};
use satip_plain::{Answer, Event, Service};
use satip_query::{Query, read};
use satip_rtsp::{Method, Request, SessionName};
use std::alloc::Global;
use std::test::Fail;

const FIRST: SessionId = SessionId { count: 1, word: 10 };

fn server(alloc: Global) -> Result<Server, Fail>
    ensures history { IfOk result (λ server. StandsAfter server []) }
{
    let config = config_with(alloc, 2, &[FIRST_MUX, SECOND_MUX])?;
    Ok(Server::make(alloc, config, 0)?)
}

/// Creates the server before its first event, with a Stop before the call of this number.
pub fn solo(alloc: Global, stop: Option<u64>) -> Result<Solo, Fail> {
    Ok(Solo::make(alloc, server(alloc)?, stop)?)
}

// Returns a request in the first session, for the first stream.
fn request(method: Method) -> Request {
    Request {
        cseq: Some(1),
        refusal: None,
        method,
        stream: Some(1),
        session: SessionName::Named(FIRST),
        query: Query::new(),
        ports: None,
    }
}

// Returns a DESCRIBE of the first stream, in no session.
fn describe() -> Request {
    Request {
        session: SessionName::Absent,
        ..request(Method::Describe)
    }
}

// Returns the SETUP that creates the first stream, on the first front end.
fn setup(query: Query) -> Request {
    Request {
        stream: None,
        session: SessionName::Absent,
        query,
        ports: Some(PORTS),
        ..request(Method::Setup)
    }
}

// Executes an event.
fn make(solo: &mut Solo, event: &Event, out: &mut Out) -> Result<Answer, Fail> {
    Ok(solo.call(event, out).ok().ok_or("answer")?)
}

// Returns the status of the reply to a request, or 0 for another event.
fn status(answer: Answer) -> u16 {
    match answer {
        Answer::Replied(replied) => replied.status,
        _ => 0,
    }
}

// Executes a request of the client, and returns the status of its reply.
fn make_request(solo: &mut Solo, request: Request, out: &mut Out) -> Result<u16, Fail> {
    let event = Event::Request {
        peer: CLIENT,
        draw: DRAW,
        request,
    };
    Ok(status(make(solo, &event, out)?))
}

/// Executes the SETUP that creates the first stream, and returns its status.
pub fn set_up(solo: &mut Solo, out: &mut Out) -> Result<u16, Fail> {
    let mut query = Query::new();
    read(first_query(), &mut query).ok().ok_or("query")?;
    make_request(solo, setup(query), out)
}

/// Executes the PLAY of the first session, and returns its status.
pub fn play(solo: &mut Solo, out: &mut Out) -> Result<u16, Fail> {
    make_request(solo, request(Method::Play), out)
}

/// Executes the PLAY of the session that `set_up` created as the one of this number, from 1, and
/// returns its status.
pub fn play_of(solo: &mut Solo, number: u16, out: &mut Out) -> Result<u16, Fail> {
    let id = SessionId {
        count: number as u32,
        ..FIRST
    };
    let play = Request {
        stream: Some(number),
        session: SessionName::Named(id),
        ..request(Method::Play)
    };
    make_request(solo, play, out)
}

/// Executes a DESCRIBE of the first stream, in no session, and returns its status.
pub fn ask_of_stream(solo: &mut Solo, out: &mut Out) -> Result<u16, Fail> {
    make_request(solo, describe(), out)
}

/// Executes a tick at this moment.
pub fn tick(solo: &mut Solo, now: u64, out: &mut Out) -> Result<Answer, Fail> {
    make(solo, &Event::Tick { now }, out)
}

/// Gives a packet of PID 16 for tune number 1 of the first front end.
pub fn give(solo: &mut Solo, out: &mut Out) -> Result<Answer, Fail> {
    let event = Event::Packet {
        front: 1,
        tune: 1,
        packet: packet(16)?,
    };
    make(solo, &event, out)
}

/// Asks for the work of the first front end's pump.
pub fn ask(solo: &mut Solo, out: &mut Out) -> Result<Answer, Fail> {
    make(solo, &Event::Ask { front: 1 }, out)
}

/// Ends the recording of the first front end's tune number 1.
pub fn end(solo: &mut Solo, out: &mut Out) -> Result<Answer, Fail> {
    make(solo, &Event::Ended { front: 1, tune: 1 }, out)
}

/// Returns the kinds of the entries, a letter each.
pub fn letters(alloc: Global, solo: &Solo) -> Result<Vec<u8>, Fail> {
    let mut letters = Vec::new(alloc);
    for entry in solo.entries() {
        letters.push(letter(entry))?;
    }
    Ok(letters)
}

fn letter(entry: &Entry<Event, Answer, Out>) -> u8 {
    match entry.event {
        Event::Request { .. } => b'R',
        Event::Get { .. } => b'G',
        Event::Tick { .. } => b'T',
        Event::Packet { .. } => b'P',
        Event::Ended { .. } => b'E',
        Event::Ask { .. } => b'A',
        Event::Pull { .. } => b'L',
        Event::Close { .. } => b'C',
        Event::Stop => b'S',
    }
}
