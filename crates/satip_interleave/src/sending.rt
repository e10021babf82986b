//! The delivery of datagrams to lanes.

ghost use Rattle.std.specs.Prelude.{◌≡◌, ◌<◌, length, IsSomeAnd, slice_get};
ghost use Rattle.satip_interleave.specs.Lanes.{put_to};
ghost use Rattle.satip_interleave.specs.Tunnels.{put_all};

use crate::lanes::Lanes;
use satip_base::Out;

/// Sends each datagram to its lane, in order.
pub fn bring_all(out: &Out, lanes: &mut Lanes)
    ensures brought { lanes.new ≡ put_all out.now.datagrams lanes.old }
{
    for place in 0..out.count() {
        bring_one(out, place, lanes);
    }
}

// Sends the datagram at a place to its lane.
fn bring_one(out: &Out, place: usize, lanes: &mut Lanes)
    requires within { place < length out.now.datagrams }
    ensures brought { IsSomeAnd (slice_get out.now.datagrams place)
        (λ datagram. lanes.new ≡ put_to datagram.to datagram.bytes lanes.old) }
{
    match out.datagram(place) {
        Some((to, bytes)) => lanes.put(to, bytes),
        None => unreachable!(),
    }
}
