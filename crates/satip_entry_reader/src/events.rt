//! Events, read from the front of a record's bytes.

ghost use Rattle.std.specs.Prelude.{◌≡◌, ◌++◌, IfSome};
ghost use Rattle.satip_entry_writer.specs.Fields.{u8_text};
ghost use Rattle.satip_entry_writer.specs.Records.{event_text};
ghost use Rattle.satip_entry_reader.specs.Reading.{behind, kept_if};
ghost use Rattle.satip_entry_reader.specs.ReadingEvents.{ask_read, asked_read, close_read, ended_read, event_read, got_read, packet_read, pull_read, taken_read, tick_read};

use crate::reading::Reading;
use crate::requests::{read_http_request, read_request};
use satip_base::Peer;
use satip_plain::Event;
use satip_ts::Packet;

/// Reads an event: the place of its kind, and then its fields. Writes it over `event`. Returns false
/// if the bytes don't begin with one; `event` and the rest of the bytes are then unspecified.
#[tactic(auto, unfolding(crate::specs::ReadingEvents::event_read, satip_entry_writer::specs::Records::event_text))]
pub fn read_event(bytes: &mut Reading<'_>, event: &mut Event) -> bool
    ensures read { behind (kept_if result event.new) bytes.new ≡ event_read bytes.old }
    ensures front { IfSome (kept_if result event.new)
        (λ event. bytes.old ≡ event_text event ++ bytes.new) }
{
    let Some(place) = bytes.read_u8() else {
        return false;
    };
    match place {
        0 => read_asked(bytes, event),
        1 => read_got(bytes, event),
        2 => read_tick(bytes, event),
        3 => read_taken(bytes, event),
        4 => read_ended(bytes, event),
        5 => read_ask(bytes, event),
        6 => read_pull(bytes, event),
        7 => read_close(bytes, event),
        8 => {
            *event = Event::Stop;
            true
        }
        _ => false,
    }
}

#[tactic(auto, unfolding(crate::specs::ReadingEvents::asked_read, satip_entry_writer::specs::Records::event_text))]
fn read_asked(bytes: &mut Reading<'_>, event: &mut Event) -> bool
    ensures read { behind (kept_if result event.new) bytes.new ≡ asked_read bytes.old }
    ensures front { IfSome (kept_if result event.new)
        (λ event. u8_text 0 ++ bytes.old ≡ event_text event ++ bytes.new) }
{
    let Some(ip) = bytes.read_u32() else {
        return false;
    };
    let Some(draw) = bytes.read_draw() else {
        return false;
    };
    let Some(request) = read_request(bytes) else {
        return false;
    };
    *event = Event::Request {
        peer: Peer { ip },
        draw,
        request,
    };
    true
}

#[tactic(auto, unfolding(crate::specs::ReadingEvents::got_read, satip_entry_writer::specs::Records::event_text))]
fn read_got(bytes: &mut Reading<'_>, event: &mut Event) -> bool
    ensures read { behind (kept_if result event.new) bytes.new ≡ got_read bytes.old }
    ensures front { IfSome (kept_if result event.new)
        (λ event. u8_text 1 ++ bytes.old ≡ event_text event ++ bytes.new) }
{
    let Some(ip) = bytes.read_u32() else {
        return false;
    };
    let Some(draw) = bytes.read_draw() else {
        return false;
    };
    let Some(request) = read_http_request(bytes) else {
        return false;
    };
    *event = Event::Get {
        peer: Peer { ip },
        draw,
        request,
    };
    true
}

#[tactic(auto, unfolding(crate::specs::ReadingEvents::tick_read, satip_entry_writer::specs::Records::event_text))]
fn read_tick(bytes: &mut Reading<'_>, event: &mut Event) -> bool
    ensures read { behind (kept_if result event.new) bytes.new ≡ tick_read bytes.old }
    ensures front { IfSome (kept_if result event.new)
        (λ event. u8_text 2 ++ bytes.old ≡ event_text event ++ bytes.new) }
{
    let Some(now) = bytes.read_u64() else {
        return false;
    };
    *event = Event::Tick { now };
    true
}

#[tactic(auto, unfolding(crate::specs::ReadingEvents::taken_read, satip_entry_writer::specs::Records::event_text))]
fn read_taken(bytes: &mut Reading<'_>, event: &mut Event) -> bool
    ensures read { behind (kept_if result event.new) bytes.new ≡ taken_read bytes.old }
    ensures front { IfSome (kept_if result event.new)
        (λ event. u8_text 3 ++ bytes.old ≡ event_text event ++ bytes.new) }
{
    let Some(front) = bytes.read_u16() else {
        return false;
    };
    let Some(tune) = bytes.read_u64() else {
        return false;
    };
    let Some(packet) = read_packet(bytes) else {
        return false;
    };
    put_packet(event, front, tune, packet);
    true
}

#[tactic(auto, unfolding(crate::specs::ReadingEvents::ended_read, satip_entry_writer::specs::Records::event_text))]
fn read_ended(bytes: &mut Reading<'_>, event: &mut Event) -> bool
    ensures read { behind (kept_if result event.new) bytes.new ≡ ended_read bytes.old }
    ensures front { IfSome (kept_if result event.new)
        (λ event. u8_text 4 ++ bytes.old ≡ event_text event ++ bytes.new) }
{
    let Some(front) = bytes.read_u16() else {
        return false;
    };
    let Some(tune) = bytes.read_u64() else {
        return false;
    };
    *event = Event::Ended { front, tune };
    true
}

#[tactic(auto, unfolding(crate::specs::ReadingEvents::ask_read, satip_entry_writer::specs::Records::event_text))]
fn read_ask(bytes: &mut Reading<'_>, event: &mut Event) -> bool
    ensures read { behind (kept_if result event.new) bytes.new ≡ ask_read bytes.old }
    ensures front { IfSome (kept_if result event.new)
        (λ event. u8_text 5 ++ bytes.old ≡ event_text event ++ bytes.new) }
{
    let Some(front) = bytes.read_u16() else {
        return false;
    };
    *event = Event::Ask { front };
    true
}

#[tactic(auto, unfolding(crate::specs::ReadingEvents::pull_read, satip_entry_writer::specs::Records::event_text))]
fn read_pull(bytes: &mut Reading<'_>, event: &mut Event) -> bool
    ensures read { behind (kept_if result event.new) bytes.new ≡ pull_read bytes.old }
    ensures front { IfSome (kept_if result event.new)
        (λ event. u8_text 6 ++ bytes.old ≡ event_text event ++ bytes.new) }
{
    let Some(session) = bytes.read_id() else {
        return false;
    };
    *event = Event::Pull { session };
    true
}

#[tactic(auto, unfolding(crate::specs::ReadingEvents::close_read, satip_entry_writer::specs::Records::event_text))]
fn read_close(bytes: &mut Reading<'_>, event: &mut Event) -> bool
    ensures read { behind (kept_if result event.new) bytes.new ≡ close_read bytes.old }
    ensures front { IfSome (kept_if result event.new)
        (λ event. u8_text 7 ++ bytes.old ≡ event_text event ++ bytes.new) }
{
    let Some(session) = bytes.read_id() else {
        return false;
    };
    *event = Event::Close { session };
    true
}

// Writes a packet's event over an event. If that is a packet's too, writes its fields alone.
fn put_packet(event: &mut Event, front_now: u16, tune_now: u64, packet_now: Packet)
    ensures put { event.new ≡ Event.Packet front_now tune_now packet_now }
{
    match event {
        Event::Packet {
            front,
            tune,
            packet,
        } => {
            *front = front_now;
            *tune = tune_now;
            *packet = packet_now;
        }
        _ => {
            *event = Event::Packet {
                front: front_now,
                tune: tune_now,
                packet: packet_now,
            }
        }
    }
}

#[tactic(auto, unfolding(crate::specs::ReadingEvents::packet_read))]
fn read_packet(bytes: &mut Reading<'_>) -> Option<Packet>
    ensures read { behind result bytes.new ≡ packet_read bytes.old }
    ensures front { IfSome result (λ packet. bytes.old ≡ packet ++ bytes.new) }
{
    let Some(taken) = bytes.read_bytes(188) else {
        return None;
    };
    match taken.first_chunk::<188>() {
        Some(packet) => Packet::of(packet),
        None => unreachable!(),
    }
}
