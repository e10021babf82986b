//! Runs a script: answers each event, and prints its entry.

ghost use Rattle.std.specs.Prelude.{◌≡◌, ◌<◌, ◌≤◌, [], List, Ok, length, option_map, IsSome};
ghost use Rattle.satip_fronts.specs.FrontEnds.{IsNumbered};
ghost use Rattle.satip_plain.specs.declared.events.Event.{Event as EventValue};
ghost use Rattle.satip_plain.specs.Histories.{opening};
ghost use Rattle.satip_script.specs.Scripts.{IsScript, Gives};
ghost use Rattle.satip_script.specs.Runs.{run};
ghost use Rattle.satip_script.specs.Forms.{Rtsp, Http, Other};
ghost use Rattle.satip_script.specs.InParts.{call_in, form_in, packet_in};
ghost use Rattle.satip_script.specs.Printed.{printed};
ghost use Rattle.satip_core.specs.Serving.{Stands};
ghost use Rattle.satip_replay.specs.Replays.{replayed};
ghost use Rattle.satip_replay.specs.Ends.{RunEnds};
ghost use Rattle.satip_replay.specs.Runs.{AnswersForm, AnswersNext, Passes};

use satip_base::{Draw, Out, Peer, Put, Sink};
use satip_config::{Config, Outcome};
use satip_core::Server;
use satip_frame::{Break, Framer};
use satip_http::HttpRequest;
use satip_plain::Answer;
use satip_rtsp::Request;
use satip_script::{EventParts, Script, print_entry, read_get, read_request};
use satip_ts::read_packet;
use std::alloc::Global;

// Requests of a run. One after another is read into them, since they are large.
#[derive(Drop)]
struct Kept {
    request: Request,
    get: HttpRequest,
}

// The bytes of printed text that are gathered before they are written.
const GATHERED: usize = 65536;

/// Runs a script without a wrong line from the moment 0, and writes the printed run.
pub(crate) fn run_script<O: Sink>(
    alloc: Global,
    config: Config,
    script: &[u8],
    framer: &mut Framer,
    output: &mut O,
) -> Outcome
    requires few { length config.fronts ≤ 16 }
    requires numbered { IsNumbered 1 config.fronts }
    requires received { length config.muxes ≤ 256 }
    ensures ends { (events : List EventValue) → IsScript script.now (Ok events) → RunEnds O.tells
        (O.drain output.old) (O.drain output.new)
        (replayed config events) result }
{
    let Ok(mut server) = Server::make(alloc, config, 0) else {
        return Outcome::OutOfMemory;
    };
    let Ok(mut out) = Out::make(alloc) else {
        return Outcome::OutOfMemory;
    };
    let mut text = Vec::new(alloc);
    run_events(&mut server, script, framer, &mut out, &mut text, output)
}

// Answers each event of a script, and writes its printed entry.
fn run_events<O: Sink>(
    server: &mut Server,
    script: &[u8],
    framer: &mut Framer,
    out: &mut Out,
    text: &mut Vec<u8>,
    output: &mut O,
) -> Outcome
    requires empty { text.old.items ≡ [] }
    ensures ends { (events : List EventValue) → Stands server.old (opening server.old.setting)
        → IsScript script.now (Ok events) → RunEnds O.tells
        (O.drain output.old) (O.drain output.new)
        (printed (run server.old.setting events)) result }
{
    let mut lines = Script::of(script);
    let mut kept = Kept {
        request: Request::broken(Break::Bad),
        get: HttpRequest::broken(Break::Bad),
    };
    'events: while let Some(answer) = answer_next(server, &mut lines, framer, &mut kept, out) {
        match print_entry(&answer, out, text) {
            Ok(()) => {}
            Err(_) => return Outcome::OutOfMemory,
        }
        match pass_on(GATHERED, text, output) {
            Put::Whole => {}
            Put::Failed => return Outcome::OutputFault,
        }
    }
    match pass_on(1, text, output) {
        Put::Whole => Outcome::Done,
        Put::Failed => Outcome::OutputFault,
    }
}

// Answers the next event of a script. Returns None at the end, and at a wrong line.
fn answer_next(
    server: &mut Server,
    lines: &mut Script,
    framer: &mut Framer,
    kept: &mut Kept,
    out: &mut Out,
) -> Option<Answer>
    ensures setting { server.new.setting ≡ server.old.setting }
    ensures answered { (events : List EventValue) → Gives lines.old events
        → AnswersNext events lines.new server.old server.new out.new result }
    ensures shorter { IsSome result → length lines.new < length lines.old }
{
    match lines.next_parts() {
        Some(parts) => answer_parts(server, &parts, framer, kept, out),
        None => None,
    }
}

// Answers the event of these parts. Returns None if its line is wrong.
fn answer_parts(
    server: &mut Server,
    parts: &EventParts,
    framer: &mut Framer,
    kept: &mut Kept,
    out: &mut Out,
) -> Option<Answer>
    ensures setting { server.new.setting ≡ server.old.setting }
    ensures steps { AnswersForm (form_in parts.now) server.old server.new out.new result }
{
    match parts {
        EventParts::Rtsp { peer, draw, digits } => {
            answer_rtsp(server, *peer, *draw, digits, framer, &mut kept.request, out)
        }
        EventParts::Http { peer, draw, digits } => {
            answer_http(server, *peer, *draw, digits, framer, &mut kept.get, out)
        }
        EventParts::Tick { now } => Some(Answer::Beat(server.tick(*now, out))),
        EventParts::Packet {
            front,
            tune,
            digits,
        } => answer_packet(server, *front, *tune, digits, out),
        EventParts::Ended { front, tune } => Some(Answer::Work(server.ended(*front, *tune, out))),
        EventParts::Ask { front } => Some(Answer::Work(server.ask(*front, out))),
        EventParts::Pull { session } => Some(Answer::Pulled(server.pull(*session, out))),
        EventParts::Close { session } => Some(Answer::Closed(server.close(*session, out))),
        EventParts::Stop => Some(Answer::Beat(server.stop(out))),
        EventParts::Wrong => None,
    }
}

// Answers the RTSP request of these digits. Returns None if they give none.
fn answer_rtsp(
    server: &mut Server,
    peer: Peer,
    draw: Draw,
    digits: &[u8],
    framer: &mut Framer,
    request: &mut Request,
    out: &mut Out,
) -> Option<Answer>
    ensures setting { server.new.setting ≡ server.old.setting }
    ensures steps { AnswersForm (option_map Rtsp (call_in peer draw digits.now)) server.old
        server.new out.new result }
{
    if !read_request(digits, framer, request) {
        return None;
    }
    Some(Answer::Replied(server.request(peer, draw, request, out)))
}

// Answers the HTTP request of these digits. Returns None if they give none.
fn answer_http(
    server: &mut Server,
    peer: Peer,
    draw: Draw,
    digits: &[u8],
    framer: &mut Framer,
    request: &mut HttpRequest,
    out: &mut Out,
) -> Option<Answer>
    ensures setting { server.new.setting ≡ server.old.setting }
    ensures steps { AnswersForm (option_map Http (call_in peer draw digits.now)) server.old
        server.new out.new result }
{
    if !read_get(digits, framer, request) {
        return None;
    }
    Some(Answer::Get(server.get(peer, draw, request, out)))
}

// Answers the packet of these digits. Returns None if they give none.
fn answer_packet(
    server: &mut Server,
    front: u16,
    tune: u64,
    digits: &[u8],
    out: &mut Out,
) -> Option<Answer>
    ensures setting { server.new.setting ≡ server.old.setting }
    ensures steps { AnswersForm (option_map Other (packet_in front tune digits.now)) server.old
        server.new out.new result }
{
    match read_packet(digits) {
        Some(packet) => Some(Answer::Work(server.packet(front, tune, &packet, out))),
        None => None,
    }
}

// Writes and empties the text once it has `least` bytes.
fn pass_on<O: Sink>(least: usize, text: &mut Vec<u8>, output: &mut O) -> Put
    ensures passes { Passes O.tells
        (O.drain output.old) (O.drain output.new)
        text.old.items text.new.items result }
    ensures all { result ≡ Put.Whole → least ≡ 1 → text.new.items ≡ [] }
{
    if text.len() < least {
        return Put::Whole;
    }
    let put = output.put(text);
    text.clear();
    put
}
