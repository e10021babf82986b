//! Copies the output of an event.
ghost use Rattle.std.specs.Prelude.{◌≡◌, ◌≢◌, ◌<◌, ◌≤◌, length, IsSomeAnd, slice_get};
ghost use Rattle.satip_base.specs.Output.{Sends, empty};

use satip_base::Out;

/// Writes the same reply and datagrams into an empty `Out`.
pub(crate) fn copy_out(from: &Out, to: &mut Out)
    requires cleared { to.old ≡ empty }
    ensures same { to.new ≡ from.now }
{
    let count = from.count();
    to.write(from.reply());
    for place in 0..count {
        copy_datagram(from, place, to);
    }
}

fn copy_datagram(from: &Out, place: usize, to: &mut Out)
    requires within { place < length from.now.datagrams }
    requires count { to.old.count_spare ≢ 0 }
    requires bytes { IsSomeAnd (slice_get from.now.datagrams place)
        (λ datagram. length datagram.bytes ≤ to.old.datagram_spare) }
    ensures sent { IsSomeAnd (slice_get from.now.datagrams place)
        (λ datagram. Sends to.old datagram.to datagram.bytes to.new) }
{
    match from.datagram(place) {
        Some((address, bytes)) => {
            to.begin(address);
            to.extend(bytes);
        }
        None => unreachable!(),
    }
}
