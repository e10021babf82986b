//! The memory in which a tunnel's connections are served, and the requests of their messages.
ghost use Rattle.std.specs.Prelude.{◌≡◌, [], IfOk};
ghost use Rattle.satip_base.specs.Output.{empty};
ghost use Rattle.satip_rtsp_interleaved.specs.Requests.{asked_by_tunnel};
ghost use Rattle.satip_rtsp_interleaved.specs.Held.{new_parter};

use satip_base::{Out, Want};
use satip_frame::Message;
use satip_rtsp::Request;
use satip_rtsp_interleaved::{ChannelReply, Parter};
use std::alloc::Global;

/// A parter for the bytes that come in, an `Out` for the output of each event, and the reply
/// rewritten to channels.
#[derive(Drop)]
pub struct TunnelRoom {
    pub parter: Parter,
    pub out: Out,
    pub reply: ChannelReply,
}

impl TunnelRoom {
    /// Takes all the memory for serving connections one after another. Returns `Want` if it was
    /// refused.
    pub fn make(alloc: Global) -> Result<TunnelRoom, Want>
        ensures parter { IfOk result (λ room. room.parter ≡ new_parter) }
        ensures out { IfOk result (λ room. room.out ≡ empty) }
        ensures reply { IfOk result (λ room. room.reply ≡ []) }
    {
        Ok(TunnelRoom {
            parter: Parter::make(alloc)?,
            out: Out::make(alloc)?,
            reply: ChannelReply::make(alloc)?,
        })
    }
}

/// Returns the request of a message: that of `satip_rtsp`, but a SETUP has the channels of its
/// first acceptable transport for ports, each with 1 added. A transport is acceptable if its first
/// parameter is `RTP/AVP/TCP` and its first `interleaved=` parameter has an acceptable value. That
/// value is `a-b`, two different numbers up to 255, or `a` up to 254, which means a and a + 1 (RFC
/// 2326, sections 10.12 and 12.39).
pub fn request(message: &Message<'_>) -> Request
    ensures asked { result ≡ asked_by_tunnel message.now }
{
    satip_rtsp_interleaved::request(message)
}
