//! Frequencies in kHz, which queries write in MHz.

ghost use Rattle.std.specs.Prelude.{◌≡◌, ◌-◌, ◌≤◌, ◌++◌, true, take, codes};
ghost use Rattle.std.specs.Char.{is_ascii_digit};
ghost use Rattle.std.specs.List.{list_all, slice_index_or};
ghost use Rattle.std.specs.Str.Parse.{digits_value};
ghost use Rattle.satip_base.specs.Numbers.{are_digits};
ghost use Rattle.satip_tune.specs.Frequency.{allowed_frequency, frequency_from, frequency_of, frequency_of_parts, thousandths_of};

use crate::faults::ValueFault;
use crate::pieces::cut;
use satip_base::read_number;

/// Reads a frequency (`freq` of a query) in MHz, as kHz: 1 to 20 digits, then optionally a dot and
/// 1 to 6 digits. After the dot only the first three digits count. `NotAllowed` if it is below 1
/// MHz or above 99999.999 MHz.
#[tactic(auto, unfolding(crate::specs::Frequency::frequency_of))]
pub fn read_frequency(text: &[u8]) -> Result<u32, ValueFault>
    ensures value { result ≡ frequency_of text.now }
{
    let (mhz, rest) = cut(text, b'.');
    match rest {
        None => join(read_number(mhz, u64::MAX), Some(0)),
        Some(rest) => match cut(rest, b'.') {
            (digits, None) => join(read_number(mhz, u64::MAX), read_thousandths(digits)),
            (_, Some(_)) => Err(ValueFault::Malformed),
        },
    }
}

fn join(mhz: Option<u64>, khz: Option<u16>) -> Result<u32, ValueFault>
    ensures value { result ≡ frequency_from mhz khz }
{
    match (mhz, khz) {
        (Some(mhz), Some(khz)) => allowed(mhz as u128 * 1000 + khz as u128),
        _ => Err(ValueFault::Malformed),
    }
}

fn allowed(khz: u128) -> Result<u32, ValueFault>
    ensures value { result ≡ allowed_frequency khz }
{
    if khz >= 1000 && khz <= 99_999_999 {
        Ok(khz as u32)
    } else {
        Err(ValueFault::NotAllowed)
    }
}

fn read_thousandths(digits: &[u8]) -> Option<u16>
    ensures value { result ≡ thousandths_of digits.now }
{
    if is_fraction(digits) {
        Some(first_three(digits))
    } else {
        None
    }
}

/// Returns whether the text is 1 to 6 digits, as they may follow the dot of a decimal number.
pub fn is_fraction(text: &[u8]) -> bool
    ensures digits { result ≡ are_digits 6 text.now }
{
    !text.is_empty() && text.len() <= 6 && are_all_digits(text)
}

fn are_all_digits(text: &[u8]) -> bool
    ensures digits { result ≡ list_all is_ascii_digit text.now }
{
    text.iter().all(|byte| byte.is_ascii_digit())
}

// Returns the value of the first three digits, with zeros for missing ones.
fn first_three(digits: &[u8]) -> u16
    requires { are_digits 6 digits.now ≡ true }
    ensures value { result ≡ digits_value 10 (take 3 (digits.now ++ codes "00")) }
{
    value_at(digits, 0) * 100 + value_at(digits, 1) * 10 + value_at(digits, 2)
}

fn value_at(digits: &[u8], place: usize) -> u16
    ensures value { result ≡ slice_index_or digits.now place 48 - 48 }
    ensures small { result ≤ 207 }
{
    digits
        .get(place)
        .copied()
        .unwrap_or(b'0')
        .saturating_sub(b'0') as u16
}
