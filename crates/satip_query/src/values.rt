//! The values of a query's keys.

ghost use Rattle.std.specs.Prelude.{◌≡◌, ◌<◌, [], ◌∷◌, ◌++◌, length, nat_le, if◌then◌else◌};
ghost use Rattle.std.specs.Bool.{MatchBool};
ghost use Rattle.std.specs.Char.{is_ascii_alphanumeric};
ghost use Rattle.std.specs.List.{list_all, slice_split};
ghost use Rattle.satip_tune.specs.Pieces.{is_byte};
ghost use Rattle.satip_tune.specs.declared.faults.ValueFault.TheVariants.{Malformed, NotAllowed};
ghost use Rattle.satip_query.specs.Values.{ListAnswers, are_decimal, is_word_text, named_or, number_in, pid_list_of, roll_off_of};

use satip_base::read_number;
use satip_pids::PidList;
use satip_tune::{RollOff, ValueFault, cut, is_fraction};

/// Reads a number from `low` to `high`. A number outside is `NotAllowed`.
pub fn read_number_in(text: &[u8], low: u64, high: u64) -> Result<u64, ValueFault>
    ensures value { result ≡ number_in low high text.now }
{
    match read_number(text, u64::MAX) {
        None => Err(ValueFault::Malformed),
        Some(number) if low <= number && number <= high => Ok(number),
        Some(_) => Err(ValueFault::NotAllowed),
    }
}

/// Returns whether the text has the form of a word: 1 to 16 letters and digits.
pub fn is_word(text: &[u8]) -> bool
    ensures word { result ≡ is_word_text text.now }
{
    !text.is_empty() && text.len() <= 16 && are_letters_or_digits(text)
}

fn are_letters_or_digits(text: &[u8]) -> bool
    ensures all { result ≡ list_all is_ascii_alphanumeric text.now }
{
    text.iter().all(|byte| byte.is_ascii_alphanumeric())
}

/// Returns the value that a word names, or the fault of the text if it names none.
pub fn named_word<T: Drop>(value: Option<T>, text: &[u8]) -> Result<T, ValueFault>
    ensures value { result ≡ named_or value (is_word_text text.now) }
{
    match value {
        Some(value) => Ok(value),
        None => Err(fault_of(is_word(text))),
    }
}

fn fault_of(formed: bool) -> ValueFault
    ensures fault { result ≡ (if formed then NotAllowed else Malformed) }
{
    if formed {
        ValueFault::NotAllowed
    } else {
        ValueFault::Malformed
    }
}

/// Reads a roll-off. Another decimal number is `NotAllowed`.
pub fn read_roll_off(text: &[u8]) -> Result<RollOff, ValueFault>
    ensures value { result ≡ roll_off_of text.now }
{
    match RollOff::named(text) {
        Some(value) => Ok(value),
        None => Err(fault_of(is_decimal(text))),
    }
}

fn is_decimal(text: &[u8]) -> bool
    ensures decimal { result ≡ are_decimal (slice_split (is_byte 46) text.now) }
{
    let (whole, rest) = cut(text, b'.');
    match rest {
        None => false,
        Some(rest) => match cut(rest, b'.') {
            (digits, None) => read_number(whole, u64::MAX).is_some() && is_fraction(digits),
            (_, Some(_)) => false,
        },
    }
}

/// Reads a list of 1 to 512 PIDs with commas between them into an empty list. It reads in place,
/// since lists are large.
#[tactic(auto, unfolding(crate::specs::Values::pid_list_of))]
pub fn read_pid_list(text: &[u8], list: &mut PidList) -> Result<(), ValueFault>
    requires empty { list.old ≡ [] }
    ensures value { ListAnswers result (pid_list_of text.now) list.new }
{
    let mut are_pids = true;
    let mut count: usize = 0;
    let mut left = Some(text);
    while let Some(rest) = left {
        let (part, next) = cut(rest, b',');
        let Some(number) = read_number(part, u64::MAX) else {
            return Err(ValueFault::Malformed);
        };
        if count == 512 {
            return Err(ValueFault::Malformed);
        }
        count += 1;
        are_pids = keep(number, list) && are_pids;
        left = next;
    }
    if are_pids {
        Ok(())
    } else {
        Err(ValueFault::NotAllowed)
    }
}

// Appends a number if it is a PID, and returns whether it is.
fn keep(number: u64, list: &mut PidList) -> bool
    requires room { length list.old < 512 }
    ensures kept { result ≡ nat_le number 8191 }
    ensures pushed { MatchBool result (list.new ≡ list.old ++ number ∷ []) (list.new ≡ list.old) }
{
    if number > 8191 {
        return false;
    }
    let _ = list.push(number as u16);
    true
}
