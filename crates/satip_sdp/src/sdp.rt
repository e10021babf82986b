//! Whole session descriptions.

ghost use Rattle.std.specs.Prelude.{◌≡◌, ◌≤◌, length};
ghost use Rattle.satip_base.specs.Output.{Wrote};
ghost use Rattle.satip_sdp.specs.Sdp.{sdp};

use crate::lines::{head_text, stream_text};
use satip_base::Out;
use satip_rtcp::StreamView;

/// Appends the session description of a server and its streams, in the order given, to the reply.
pub fn write_sdp(address: u32, fronts: u16, streams: &[StreamView], out: &mut Out)
    requires few { length streams.now ≤ 64 }
    requires room { 110000 ≤ out.old.reply_spare }
    ensures wrote { Wrote out.old (sdp address fronts streams.now) out.new }
    ensures bound { length (sdp address fronts streams.now) ≤ 102500 }
{
    let head = head_text(address, fronts);
    out.write(head.bytes());
    for stream in streams {
        let lines = stream_text(stream);
        out.write(lines.bytes());
    }
}

/// Returns the number of bytes that `write_sdp` appends for these arguments.
pub fn sdp_length(address: u32, fronts: u16, streams: &[StreamView]) -> usize
    requires few { length streams.now ≤ 64 }
    ensures length { result ≡ length (sdp address fronts streams.now) }
    ensures bound { result ≤ 102500 }
{
    let head = head_text(address, fronts);
    let mut total = head.bytes().len();
    for stream in streams {
        let lines = stream_text(stream);
        total += lines.bytes().len();
    }
    total
}
