//! Records of entries, appended to a line in digits.

ghost use Rattle.std.specs.Prelude.{◌*◌, ◌≤◌, ◌<◌, ◌^◌, length, flat_map};
ghost use Rattle.satip_base.specs.Output.{IsWithinRoom};
ghost use Rattle.satip_base.specs.Lists.{Each};
ghost use Rattle.satip_plain.specs.Values.{AreBytes};
ghost use Rattle.satip_entry_writer.specs.Entries.{IsAnswer, IsGet, IsOfBytes, IsPulled, IsReplied, IsTarget, IsWork};
ghost use Rattle.satip_entry_writer.specs.Fields.{list_text};
ghost use Rattle.satip_entry_writer.specs.Records.{event_text, replied_text, get_text, beat_text, work_text, pulled_text, closed_text, answer_text, bytes_text, datagram_text, record_text};
ghost use Rattle.satip_entry_writer.specs.Sheets.{WroteHex};

use crate::fields::{encode_address, encode_bool, encode_draw, encode_id};
use crate::requests::{encode_http_request, encode_request};
use crate::room::LineRoom;
use satip_base::{Address, Out};
use satip_plain::{Answer, Beat, Closed, Event, GetAnswer, Pulled, Replied, Work};

/// Appends an event: a byte, its place in `Event` from 0, then its fields in their order.
#[tactic(auto, using(crate::proofs::Writing::writing_steps), unfolding(crate::specs::Records::event_text))]
pub fn encode_event(event: &Event, line: &mut LineRoom)
    requires room { 2 * length (event_text event.now) ≤ line.old.spare }
    ensures wrote { WroteHex line.old (event_text event.now) line.new }
{
    match event {
        Event::Request {
            peer,
            draw,
            request,
        } => {
            line.encode_u8(0);
            line.encode_u32(peer.ip);
            encode_draw(*draw, line);
            encode_request(request, line);
        }
        Event::Get {
            peer,
            draw,
            request,
        } => {
            line.encode_u8(1);
            line.encode_u32(peer.ip);
            encode_draw(*draw, line);
            encode_http_request(request, line);
        }
        Event::Tick { now } => {
            line.encode_u8(2);
            line.encode_u64(*now);
        }
        Event::Packet {
            front,
            tune,
            packet,
        } => {
            line.encode_u8(3);
            line.encode_u16(*front);
            line.encode_u64(*tune);
            line.encode(packet.bytes());
        }
        Event::Ended { front, tune } => {
            line.encode_u8(4);
            line.encode_u16(*front);
            line.encode_u64(*tune);
        }
        Event::Ask { front } => {
            line.encode_u8(5);
            line.encode_u16(*front);
        }
        Event::Pull { session } => {
            line.encode_u8(6);
            encode_id(*session, line);
        }
        Event::Close { session } => {
            line.encode_u8(7);
            encode_id(*session, line);
        }
        Event::Stop => line.encode_u8(8),
    }
}

#[tactic(auto, using(crate::proofs::Writing::writing_steps))]
fn encode_replied(replied: Replied, line: &mut LineRoom)
    requires room { 2 * length (replied_text replied) ≤ line.old.spare }
    ensures wrote { WroteHex line.old (replied_text replied) line.new }
    ensures value { IsReplied replied }
{
    line.encode_u16(replied.status);
    encode_bool(replied.closing, line);
}

#[tactic(auto, using(crate::proofs::Writing::writing_steps))]
fn encode_get(get: GetAnswer, line: &mut LineRoom)
    requires room { 2 * length (get_text get) ≤ line.old.spare }
    ensures wrote { WroteHex line.old (get_text get) line.new }
    ensures value { IsGet get }
{
    match get {
        GetAnswer::Started(id) => {
            line.encode_u8(0);
            encode_id(id, line);
        }
        GetAnswer::Refused(status) => {
            line.encode_u8(1);
            line.encode_u16(status);
        }
    }
}

#[tactic(auto, using(crate::proofs::Writing::writing_steps))]
fn encode_beat(beat: Beat, line: &mut LineRoom)
    requires room { 2 * length (beat_text beat) ≤ line.old.spare }
    ensures wrote { WroteHex line.old (beat_text beat) line.new }
{
    match beat {
        Beat::Going => line.encode_u8(0),
        Beat::Stopping => line.encode_u8(1),
    }
}

#[tactic(auto, using(crate::proofs::Writing::writing_steps))]
fn encode_work(work: Work, line: &mut LineRoom)
    requires room { 2 * length (work_text work) ≤ line.old.spare }
    ensures wrote { WroteHex line.old (work_text work) line.new }
    ensures value { IsWork work }
{
    match work {
        Work::Tune { mux, tune } => {
            line.encode_u8(0);
            line.encode_u16(mux);
            line.encode_u64(tune);
        }
        Work::Nothing => line.encode_u8(1),
        Work::Stopping => line.encode_u8(2),
    }
}

#[tactic(auto, using(crate::proofs::Writing::writing_steps))]
fn encode_pulled(pulled: Pulled, line: &mut LineRoom)
    requires room { 2 * length (pulled_text pulled) ≤ line.old.spare }
    ensures wrote { WroteHex line.old (pulled_text pulled) line.new }
    ensures value { IsPulled pulled }
{
    match pulled {
        Pulled::Bytes(count) => {
            line.encode_u8(0);
            line.encode_u64(count as u64);
        }
        Pulled::Empty => line.encode_u8(1),
        Pulled::Gone => line.encode_u8(2),
    }
}

#[tactic(auto, using(crate::proofs::Writing::writing_steps))]
fn encode_closed(closed: Closed, line: &mut LineRoom)
    requires room { 2 * length (closed_text closed) ≤ line.old.spare }
    ensures wrote { WroteHex line.old (closed_text closed) line.new }
{
    match closed {
        Closed::Yes => line.encode_u8(0),
        Closed::Gone => line.encode_u8(1),
    }
}

/// Appends an answer: a byte, its place in `Answer` from 0, then its fields in their order.
#[tactic(auto, using(crate::proofs::Writing::writing_steps), unfolding(crate::specs::Records::answer_text))]
pub fn encode_answer(answer: Answer, line: &mut LineRoom)
    requires room { 2 * length (answer_text answer) ≤ line.old.spare }
    ensures wrote { WroteHex line.old (answer_text answer) line.new }
    ensures value { IsAnswer answer }
{
    match answer {
        Answer::Replied(replied) => {
            line.encode_u8(0);
            encode_replied(replied, line);
        }
        Answer::Get(get) => {
            line.encode_u8(1);
            encode_get(get, line);
        }
        Answer::Beat(beat) => {
            line.encode_u8(2);
            encode_beat(beat, line);
        }
        Answer::Work(work) => {
            line.encode_u8(3);
            encode_work(work, line);
        }
        Answer::Pulled(pulled) => {
            line.encode_u8(4);
            encode_pulled(pulled, line);
        }
        Answer::Closed(closed) => {
            line.encode_u8(5);
            encode_closed(closed, line);
        }
    }
}

#[tactic(auto, using(crate::proofs::Writing::writing_steps))]
fn encode_bytes(bytes: &[u8], line: &mut LineRoom)
    requires short { length bytes.now < 2 ^ 32 }
    requires room { 2 * length (bytes_text bytes.now) ≤ line.old.spare }
    ensures wrote { WroteHex line.old (bytes_text bytes.now) line.new }
    ensures value { AreBytes bytes.now }
{
    line.encode_u32(bytes.len() as u32);
    line.encode(bytes);
}

#[tactic(auto, using(crate::proofs::Writing::writing_steps))]
fn encode_datagram(to: Address, bytes: &[u8], line: &mut LineRoom)
    requires short { length bytes.now < 2 ^ 32 }
    requires room { 2 * length (datagram_text (record { to = to; bytes = bytes.now }))
        ≤ line.old.spare }
    ensures wrote { WroteHex line.old (datagram_text (record { to = to; bytes = bytes.now }))
        line.new }
    ensures target { IsTarget (record { to = to; bytes = bytes.now }) }
    ensures bytes { AreBytes bytes.now }
{
    encode_address(to, line);
    encode_bytes(bytes, line);
}

#[tactic(auto, using(crate::proofs::Writing::writing_steps, crate::proofs::Lists::list_steps))]
fn encode_datagrams(out: &Out, line: &mut LineRoom)
    requires room { 2 * length (flat_map datagram_text out.now.datagrams) ≤ line.old.spare }
    ensures wrote { WroteHex line.old (flat_map datagram_text out.now.datagrams) line.new }
    ensures targets { Each IsTarget out.now.datagrams }
    ensures bytes { Each IsOfBytes out.now.datagrams }
{
    'datagrams: for place in 0..out.count() {
        match out.datagram(place) {
            Some((to, bytes)) => encode_datagram(to, bytes, line),
            None => unreachable!(),
        }
    }
}

/// Appends the record of an entry: its event, its answer, the length of its reply and the reply,
/// the count of its datagrams and the datagrams.
#[tactic(auto, using(crate::proofs::Writing::writing_steps, crate::proofs::Lists::list_steps), unfolding(crate::specs::Records::record_text))]
pub fn encode_record(event: &Event, answer: Answer, out: &Out, line: &mut LineRoom)
    requires room { 2 * length (record_text event.now answer out.now.reply out.now.datagrams)
        ≤ line.old.spare }
    ensures wrote { WroteHex line.old (record_text event.now answer out.now.reply out.now.datagrams)
        line.new }
    ensures answer { IsAnswer answer }
    ensures reply { AreBytes out.now.reply }
    ensures targets { Each IsTarget out.now.datagrams }
    ensures bytes { Each IsOfBytes out.now.datagrams }
{
    let count = out.count();
    encode_event(event, line);
    encode_answer(answer, line);
    encode_bytes(out.reply(), line);
    line.encode_u16(count as u16);
    encode_datagrams(out, line);
}
