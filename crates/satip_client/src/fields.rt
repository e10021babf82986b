//! The values of a reply's headers: the session with its timeout, and numbers.
ghost use Rattle.std.specs.Prelude.{◌≡◌, IfSome};
ghost use Rattle.std.specs.Option.{option_and_then, option_copied};
ghost use Rattle.satip_base.specs.Numbers.{number_of};
ghost use Rattle.satip_client.specs.Fields.{session_named, timeout_of_value, timeout_of_text, text_of_timeout, unless_zero, without_first_spaces, without_last_spaces, text_without_spaces};

use satip_base::read_number;
use satip_tune::cut;

/// The seconds that a session lives without a request, if no reply says it (RFC 2326, 12.37).
const USUAL_TIMEOUT: u32 = 60;

/// Returns the session that the value of a `Session` header names.
pub(crate) fn session_of(value: Option<&[u8]>) -> Option<&[u8]>
    ensures session { option_copied result
        ≡ option_and_then session_named (option_copied value.entry) }
{
    let Some(value) = value else {
        return None;
    };
    let session = without_spaces(cut(value, b';').0);
    if session.is_empty() {
        return None;
    }
    Some(session)
}

/// Returns the timeout that a `Session` header gives, in seconds.
pub(crate) fn timeout_of(value: Option<&[u8]>) -> u32
    ensures timeout { result ≡ timeout_of_value (option_copied value.entry) }
{
    match value {
        None => USUAL_TIMEOUT,
        Some(value) => timeout_in(value),
    }
}

fn timeout_in(value: &[u8]) -> u32
    ensures timeout { result ≡ timeout_of_text value.now }
{
    let (_session, mut left) = cut(value, b';');
    while let Some(rest) = left {
        let (parameter, next) = cut(rest, b';');
        if let Some(text) = timeout_text(parameter) {
            return seconds(text);
        }
        left = next;
    }
    USUAL_TIMEOUT
}

#[tactic(auto, unfolding(crate::specs::Fields::text_without_spaces))]
fn timeout_text(parameter: &[u8]) -> Option<&[u8]>
    ensures text { option_copied result ≡ text_of_timeout parameter.now }
{
    let text = without_spaces(parameter);
    if text.starts_with(b"timeout=") {
        Some(text.split_at(8).1)
    } else {
        None
    }
}

fn seconds(text: &[u8]) -> u32
    ensures seconds { result ≡ unless_zero (number_of 4294967295 text.now) }
{
    match number_u32(text) {
        None => USUAL_TIMEOUT,
        Some(0) => USUAL_TIMEOUT,
        Some(seconds) => seconds,
    }
}

/// Reads a number of up to 32 bits.
#[tactic(auto, using(crate::proofs::Bounds::bounds))]
pub(crate) fn number_u32(text: &[u8]) -> Option<u32>
    ensures value { result ≡ number_of 4294967295 text.now }
{
    match read_number(text, u32::MAX as u64) {
        None => None,
        Some(number) => Some(number as u32),
    }
}

/// Reads a number of up to 16 bits.
#[tactic(auto, using(crate::proofs::Bounds::bounds))]
pub(crate) fn number_u16(text: &[u8]) -> Option<u16>
    ensures value { result ≡ number_of 65535 text.now }
{
    match read_number(text, u16::MAX as u64) {
        None => None,
        Some(number) => Some(number as u16),
    }
}

#[tactic(auto, unfolding(crate::specs::Fields::text_without_spaces))]
fn without_spaces(text: &[u8]) -> &[u8]
    ensures spaces { result.now ≡ text_without_spaces text.now }
{
    without_last(without_first(text))
}

fn without_first(text: &[u8]) -> &[u8]
    ensures spaces { result.now ≡ without_first_spaces text.now }
{
    let mut rest = text;
    while let Some((first, others)) = rest.split_first() {
        if *first != b' ' {
            return rest;
        }
        rest = others;
    }
    rest
}

fn without_last(text: &[u8]) -> &[u8]
    ensures spaces { result.now ≡ without_last_spaces text.now }
{
    let mut rest = text;
    while let Some((last, others)) = rest.split_last() {
        if *last != b' ' {
            return rest;
        }
        rest = others;
    }
    rest
}
