//! Copies of events.
ghost use Rattle.std.specs.Prelude.{◌≡◌};

use crate::events::Event;

/// Returns the same event, for a service that passes its events on by value.
pub fn copy_of(event: &Event) -> Event
    ensures same { result ≡ event.now }
{
    match event {
        Event::Request {
            peer,
            draw,
            request,
        } => Event::Request {
            peer: *peer,
            draw: *draw,
            request: *request,
        },
        Event::Get {
            peer,
            draw,
            request,
        } => Event::Get {
            peer: *peer,
            draw: *draw,
            request: *request,
        },
        Event::Tick { now } => Event::Tick { now: *now },
        Event::Packet {
            front,
            tune,
            packet,
        } => Event::Packet {
            front: *front,
            tune: *tune,
            packet: *packet,
        },
        Event::Ended { front, tune } => Event::Ended {
            front: *front,
            tune: *tune,
        },
        Event::Ask { front } => Event::Ask { front: *front },
        Event::Pull { session } => Event::Pull { session: *session },
        Event::Close { session } => Event::Close { session: *session },
        Event::Stop => Event::Stop,
    }
}
