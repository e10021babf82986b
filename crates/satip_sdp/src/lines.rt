//! Lines of session descriptions.

ghost use Rattle.std.specs.Prelude.{◌≡◌, ◌≤◌, length};
ghost use Rattle.satip_sdp.specs.Sdp.{direction_line, head_lines, stream_lines};

use satip_base::Strip;
use satip_rtcp::{StreamView, ses1_text, write_address};

/// Returns the lines of the server, with its IPv4 address and the number of its front ends.
#[tactic(auto, using(satip_base::proofs::NumberLemmas::digit_bounds))]
pub fn head_text(address: u32, fronts: u16) -> Strip
    ensures lines { result ≡ head_lines address fronts }
    ensures bound { length result ≤ 100 }
{
    let mut strip = Strip::new();
    strip.write(b"v=0\r\n");
    strip.write(b"o=- 1 1 IN IP4 ");
    write_address(address, &mut strip);
    strip.write(b"\r\n");
    strip.write(b"s=SatIPServer:1 ");
    strip.write_number(fronts as u64);
    strip.write(b"\r\n");
    strip.write(b"t=0 0\r\n");
    strip
}

/// Returns the lines of a stream.
#[tactic(auto, using(satip_base::proofs::NumberLemmas::digit_bounds))]
pub fn stream_text(view: &StreamView) -> Strip
    ensures lines { result ≡ stream_lines view.now }
    ensures bound { length result ≤ 1600 }
{
    let mut strip = Strip::new();
    strip.write(b"m=video 0 RTP/AVP 33\r\n");
    strip.write(b"c=IN IP4 0.0.0.0\r\n");
    strip.write(b"a=control:stream=");
    strip.write_number(view.number as u64);
    strip.write(b"\r\n");
    strip.write(b"a=fmtp:33 ");
    ses1_text(view, &mut strip);
    strip.write(b"\r\n");
    strip.write(direction(view.playing));
    strip
}

#[tactic(auto, unfolding(crate::specs::Sdp::direction_line))]
fn direction(playing: bool) -> &'static [u8]
    ensures line { result.now ≡ direction_line playing }
    ensures bound { length result.now ≤ 12 }
{
    if playing {
        b"a=sendonly\r\n"
    } else {
        b"a=inactive\r\n"
    }
}
