//! Reads one line of a script as a whole.
ghost use Rattle.std.specs.Prelude.{◌≡◌, List, ℕ, option_map};
ghost use Rattle.satip_script.specs.Forms.{Rtsp, Http, Other};
ghost use Rattle.satip_script.specs.Reading.{IsFormed, IsLine};
ghost use Rattle.satip_script.specs.InParts.{call_in, form_in, packet_in};

use crate::messages::{read_get, read_request};
use crate::parts::{EventParts, read_parts};
use satip_base::{Draw, Peer};
use satip_frame::{Break, Framer};
use satip_http::HttpRequest;
use satip_plain::Event;
use satip_rtsp::Request;
use satip_ts::read_packet;

/// The content of a script's line.
#[derive(Drop)]
pub enum Line {
    /// An empty line, or a comment, which begins with `#`.
    Skip,
    /// An event.
    Event(Event),
    /// Neither of them.
    Wrong,
}

/// Reads a line of a script, without the LF that ends it. A line is words with one space between
/// them; the first is the kind of the event. The framer's bytes are lost.
pub fn read_line(line: &[u8], framer: &mut Framer) -> Line
    ensures line { IsLine line.now result }
{
    match read_parts(line) {
        Some(parts) => read_whole(&parts, framer),
        None => Line::Skip,
    }
}

// Returns the event of these parts.
fn read_whole(parts: &EventParts, framer: &mut Framer) -> Line
    ensures line { IsFormed (form_in parts.now) result }
{
    match parts {
        EventParts::Rtsp { peer, draw, digits } => read_rtsp(*peer, *draw, digits, framer),
        EventParts::Http { peer, draw, digits } => read_http(*peer, *draw, digits, framer),
        EventParts::Tick { now } => Line::Event(Event::Tick { now: *now }),
        EventParts::Packet {
            front,
            tune,
            digits,
        } => read_packet_line(*front, *tune, digits),
        EventParts::Ended { front, tune } => Line::Event(Event::Ended {
            front: *front,
            tune: *tune,
        }),
        EventParts::Ask { front } => Line::Event(Event::Ask { front: *front }),
        EventParts::Pull { session } => Line::Event(Event::Pull { session: *session }),
        EventParts::Close { session } => Line::Event(Event::Close { session: *session }),
        EventParts::Stop => Line::Event(Event::Stop),
        EventParts::Wrong => Line::Wrong,
    }
}

fn read_packet_line(front: u16, tune: u64, digits: &[u8]) -> Line
    ensures line { IsFormed (option_map Other (packet_in front tune digits.now)) result }
{
    match read_packet(digits) {
        Some(packet) => Line::Event(Event::Packet {
            front,
            tune,
            packet,
        }),
        None => Line::Wrong,
    }
}

fn read_rtsp(peer: Peer, draw: Draw, digits: &[u8], framer: &mut Framer) -> Line
    ensures line { IsFormed (option_map Rtsp (call_in peer draw digits.now)) result }
{
    let mut request = Request::broken(Break::Bad);
    if !read_request(digits, framer, &mut request) {
        return Line::Wrong;
    }
    Line::Event(Event::Request {
        peer,
        draw,
        request,
    })
}

fn read_http(peer: Peer, draw: Draw, digits: &[u8], framer: &mut Framer) -> Line
    ensures line { IsFormed (option_map Http (call_in peer draw digits.now)) result }
{
    let mut request = HttpRequest::broken(Break::Bad);
    if !read_get(digits, framer, &mut request) {
        return Line::Wrong;
    }
    Line::Event(Event::Get {
        peer,
        draw,
        request,
    })
}
