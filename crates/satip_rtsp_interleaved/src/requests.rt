//! The requests of messages on a connection that carries the packets too.
ghost use Rattle.std.specs.Prelude.{◌≡◌, codes};
ghost use Rattle.std.specs.Option.{option_copied};
ghost use Rattle.satip_rtsp_interleaved.specs.Requests.{asked_by_tunnel, channels_asked, with_channels};
ghost use Rattle.satip_frame.specs.Said.{first_value};

use crate::transports::interleaved;
use satip_base::Ports;
use satip_frame::Message;
use satip_rtsp::{Method, Request};

/// Returns the request of a message: that of `Request::of`, but its ports are the channels that
/// SETUP asks for, as `interleaved` reads them. A SETUP with UDP transports alone has none, and is
/// refused with 461 as every SETUP without ports.
pub fn request(message: &Message<'_>) -> Request
    ensures asked { result ≡ asked_by_tunnel message.now }
{
    let mut request = Request::of(message);
    take_channels(message, &mut request);
    request
}

/// Replaces a request by that of a message.
pub fn read_request(message: &Message<'_>, into: &mut Request)
    ensures asked { into.new ≡ asked_by_tunnel message.now }
{
    into.read(message);
    take_channels(message, into);
}

// Replaces the UDP ports of a request by its channels.
fn take_channels(message: &Message<'_>, into: &mut Request)
    ensures taken { into.new ≡ with_channels (first_value (codes "Transport") message.now.headers)
        into.old }
{
    into.ports = channels_of(into.method, message.header(b"Transport"));
}

fn channels_of(method: Method, value: Option<&[u8]>) -> Option<Ports>
    ensures channels { result ≡ channels_asked method (option_copied value.entry) }
{
    match (method, value) {
        (Method::Setup, Some(value)) => interleaved(value),
        _ => None,
    }
}
