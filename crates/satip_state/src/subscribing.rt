//! The subscription of a session to packets.

ghost use Rattle.std.specs.Prelude.{◌≡◌, ◌<◌};
ghost use Rattle.satip_flow.specs.Subscriptions.{IsFrontOrNone, put, without};
ghost use Rattle.satip_state.specs.Subscribing.{subscription_of};

use satip_base::Address;
use satip_base::limits::SESSIONS;
use satip_flow::{Flow, Place};
use satip_table::{Session, Stream};

/// Returns the number of a front end, if it is from 1 to 16.
pub(crate) fn known_front(front: Option<u16>) -> Option<u16>
    ensures known { IsFrontOrNone result }
    ensures same { IsFrontOrNone front → result ≡ front }
{
    match front {
        None => None,
        Some(number) => {
            if number >= 1 && number <= 16 {
                Some(number)
            } else {
                None
            }
        }
    }
}

/// Subscribes the session of this slot to the packets of its stream, instead of any earlier session
/// of the slot. An HTTP session gets a queue, an RTSP session datagrams.
pub(crate) fn subscribe(flow: &mut Flow, slot: u16, session: &Session, stream: &Stream)
    requires slot { slot < SESSIONS }
    ensures added { IsFrontOrNone stream.now.front
        → flow.new ≡ put (subscription_of slot session.now stream.now) (without slot flow.old) }
{
    flow.end(slot);
    let front = known_front(stream.front);
    let place = Place {
        slot,
        stream: stream.number,
        count: session.id.count,
    };
    if session.http {
        flow.add_http(place, front, &stream.pids);
    } else {
        let to = Address {
            ip: session.peer.ip,
            port: session.ports.rtp,
        };
        flow.add_rtp(place, front, &stream.pids, to, session.ssrc, session.first);
    }
}
