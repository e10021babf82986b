//! Program clock references of packets (ISO 13818-1, 2.4.2.2 and 2.4.3.5).

ghost use Rattle.std.specs.Prelude.{◌≡◌, ◌+◌, ◌-◌, ◌<◌, ◌≤◌, IfSome};
ghost use Rattle.satip_playout.specs.References.{base_of, extension_of, has_break, has_field, has_reference, reference_in, ticks_of};

/// The count of ticks of 27 MHz in a second.
pub(crate) const SECOND: u64 = 27_000_000;

/// The count of ticks after which the clock starts at 0 again: 300 times 2^33.
const ROUND: u64 = 2_576_980_377_600;

// Returns whether there is an adaptation field of at least this many bytes.
fn is_field(bytes: &[u8; 188], least: u8) -> bool
    ensures field { result ≡ has_field least bytes.now }
{
    bytes[3] >> 5 & 1 == 1 && least <= bytes[4] && bytes[4] <= 183
}

fn is_reference(bytes: &[u8; 188]) -> bool
    ensures reference { result ≡ has_reference bytes.now }
{
    is_field(bytes, 7) && bytes[5] >> 4 & 1 == 1
}

fn base(bytes: &[u8; 188]) -> u64
    ensures base { result ≡ base_of bytes.now }
    ensures within { result < 8589934592 }
{
    let low = u64::from(bytes[9]) * 2 + u64::from(bytes[10] >> 7);
    u64::from(bytes[6]) * (1 << 25)
        + u64::from(bytes[7]) * (1 << 17)
        + u64::from(bytes[8]) * (1 << 9)
        + low
}

fn extension(bytes: &[u8; 188]) -> u64
    ensures extension { result ≡ extension_of bytes.now }
    ensures within { result < 512 }
{
    u64::from(bytes[10] & 1) * 256 + u64::from(bytes[11])
}

/// Returns the program clock reference in the bytes of a packet, in ticks of 27 MHz; `None` exactly
/// if it has none.
pub fn reference_of(bytes: &[u8; 188]) -> Option<u64>
    ensures reference { result ≡ reference_in bytes.now }
    ensures within { IfSome result (λ ticks. ticks < 2576980377600) }
{
    if !is_reference(bytes) {
        return None;
    }
    Some((base(bytes) * 300 + extension(bytes)) % ROUND)
}

/// Returns whether the flags in the bytes of a packet say that the clock has a break there.
pub fn breaks(bytes: &[u8; 188]) -> bool
    ensures breaks { result ≡ has_break bytes.now }
{
    is_field(bytes, 1) && bytes[5] >> 7 == 1
}

/// Returns the count of ticks from a reference to a later one.
pub fn ticks_between(earlier: u64, later: u64) -> u64
    ensures ahead { earlier ≤ later → result ≡ later - earlier }
    ensures round { later < earlier → earlier < 2576980377600
        → result ≡ later + 2576980377600 - earlier }
{
    if earlier <= later {
        return later - earlier;
    }
    ROUND.saturating_sub(earlier).saturating_add(later)
}
