//! Decimal numbers and IPv4 addresses, read from bytes.

ghost use Rattle.std.specs.Prelude.{◌≡◌, ◌≤◌, ◌∷◌};
ghost use Rattle.std.specs.List.{slice_split};
ghost use Rattle.std.specs.Option.{option_copied};
ghost use Rattle.satip_base.specs.Numbers.{number_of, number_within, octet_of, is_dot, ip_from, ip_of, parts_after};

/// Reads a number of 1 to 20 decimal digits that is at most `max`. It may begin with zeros; a sign
/// or a blank makes it `None`.
#[tactic(auto, unfolding(crate::specs::Numbers::number_of))]
pub fn read_number(bytes: &[u8], max: u64) -> Option<u64>
    ensures value { result ≡ number_of max bytes.now }
{
    read_digits(20, bytes, max)
}

/// Reads an IPv4 address in dotted decimal: four numbers of 1 to 3 digits, each at most 255, with a
/// dot between them. The result is in host order.
#[tactic(auto, using(crate::proofs::NumberLemmas::ip_of_five_parts), unfolding(crate::specs::Numbers::ip_of))]
pub fn read_ip(bytes: &[u8]) -> Option<u32>
    ensures value { result ≡ ip_of bytes.now }
{
    let (first, Some(rest)) = cut_at_dot(bytes) else {
        return None;
    };
    let (second, Some(rest)) = cut_at_dot(rest) else {
        return None;
    };
    let (third, Some(rest)) = cut_at_dot(rest) else {
        return None;
    };
    let (fourth, None) = cut_at_dot(rest) else {
        return None;
    };
    join_octets(
        read_octet(first),
        read_octet(second),
        read_octet(third),
        read_octet(fourth),
    )
}

// Returns the bytes before the first dot, and those after it if there is one.
#[tactic(auto, using(crate::proofs::NumberLemmas::slice_split_at_dot, crate::proofs::NumberLemmas::slice_split_no_dot))]
fn cut_at_dot(bytes: &[u8]) -> (&[u8], Option<&[u8]>)
    ensures parts { slice_split is_dot bytes.now
        ≡ result.0.now ∷ parts_after (option_copied result.1) }
{
    for (at, byte) in bytes.iter().enumerate() {
        if *byte == b'.' {
            let (head, tail) = bytes.split_at(at);
            return (head, Some(tail.split_at(1).1));
        }
    }
    (bytes, None)
}

fn join_octets(
    first: Option<u8>,
    second: Option<u8>,
    third: Option<u8>,
    fourth: Option<u8>,
) -> Option<u32>
    ensures value { result ≡ ip_from first second third fourth }
{
    match (first, second, third, fourth) {
        (Some(first), Some(second), Some(third), Some(fourth)) => {
            Some(u32::from_be_bytes([first, second, third, fourth]))
        }
        _ => None,
    }
}

fn read_octet(bytes: &[u8]) -> Option<u8>
    ensures value { result ≡ octet_of bytes.now }
{
    match read_digits(3, bytes, 255) {
        Some(value) => Some(value as u8),
        None => None,
    }
}

#[tactic(auto, using(crate::proofs::NumberLemmas::decimal_steps))]
fn read_digits(most: usize, bytes: &[u8], max: u64) -> Option<u64>
    requires { most ≤ 20 }
    ensures value { result ≡ number_within most max bytes.now }
{
    if bytes.is_empty() || bytes.len() > most {
        return None;
    }
    let mut value: u128 = 0;
    for byte in bytes {
        if !byte.is_ascii_digit() {
            return None;
        }
        value = value * 10 + (*byte - b'0') as u128;
    }
    if value <= max as u128 {
        Some(value as u64)
    } else {
        None
    }
}
