//! Hexadecimal digits of bytes and of packets.
ghost use Rattle.std.specs.Prelude.{◌≡◌, IsOk, None, is_some};
ghost use Rattle.std.specs.Bool.{OnTrue, OnFalse};
ghost use Rattle.std.specs.Char.{is_ascii_hexdigit};
ghost use Rattle.std.specs.List.{list_all};
ghost use Rattle.hex.specs.Hex.{decode_of};
ghost use Rattle.satip_ts.specs.Digits.{bytes_of, packet_of};

use crate::packet::Packet;

/// Returns whether a text is an even number of hexadecimal digits, of either case.
#[tactic(auto, using(crate::proofs::HexDigits::digit_tests))]
pub fn are_digits(text: &[u8]) -> bool
    ensures yes { OnTrue result (IsOk (decode_of text.now)) }
    ensures no { OnFalse result (bytes_of text.now ≡ None) }
{
    if text.len() % 2 != 0 {
        return false;
    }
    are_all_digits(text)
}

fn are_all_digits(text: &[u8]) -> bool
    ensures test { result ≡ list_all is_ascii_hexdigit text.now }
{
    let mut all = true;
    'digits: for byte in text {
        all &= byte.is_ascii_hexdigit();
    }
    all
}

/// Returns whether a text is the digits of a packet. It decodes nothing.
#[tactic(auto, using(crate::proofs::PacketDigits::packet_tests))]
pub fn is_packet(digits: &[u8]) -> bool
    ensures test { result ≡ is_some (packet_of digits.now) }
{
    digits.len() == 376 && digits[0] == b'4' && digits[1] == b'7' && are_all_digits(digits)
}

/// Returns the packet of 376 digits that begin with 47.
#[tactic(auto, unfolding(crate::specs::Digits::packet_of))]
pub fn read_packet(digits: &[u8]) -> Option<Packet>
    ensures packet { result ≡ packet_of digits.now }
{
    let mut bytes = [0u8; 188];
    match hex::decode_to_slice(digits, &mut bytes) {
        Ok(()) => Packet::of(&bytes),
        Err(_) => None,
    }
}
