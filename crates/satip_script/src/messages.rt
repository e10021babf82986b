//! Reads the text in a line's last word: one message, or none.
ghost use Rattle.std.specs.Prelude.{◌≡◌, ℕ, ◌+◌, ◌*◌, ◌≤◌, [], ◌++◌, List, length, None, true, IsOk, IsSome, IsSomeAnd};
ghost use Rattle.std.specs.Bool.{OnTrue, OnFalse};
ghost use Rattle.hex.specs.Hex.{decode_of};
ghost use Rattle.satip_frame.specs.Stream.{Unfinished, skip_newlines, Messages, Leads};
ghost use Rattle.satip_rtsp.specs.Asked.{asked, broken_request};
ghost use Rattle.satip_http.specs.Gets.{asked_get, broken_get};
ghost use Rattle.satip_ts.specs.Digits.{bytes_of};
ghost use Rattle.satip_script.specs.Texts.{request_of, get_of};
ghost use Rattle.satip_script.specs.InParts.{Asks, AsksNothing};
ghost use Rattle.satip_script.specs.Inner.{Says, Sees, SeesIn, newline_first};

use satip_frame::{Break, Framer, Step};
use satip_http::HttpRequest;
use satip_rtsp::Request;
use satip_ts::are_digits;

const ROOM: usize = 12288;

// The room for most messages. A longer message clears `ROOM` bytes.
const SHORT: usize = 512;

// The result of a look at a text.
#[derive(Clone, Copy, Debug, PartialEq, Eq)]
enum Look {
    // One message, which the framer holds, and nothing more.
    Whole,
    // The text begins with something that is no message.
    NotWhole(Break),
    // Neither.
    Nothing,
}

/// Reads the RTSP request in these hexadecimal digits into `into`. A text that is broken gives a
/// broken request. Returns false and leaves `into` as it is if the word isn't digits, or if the
/// text is neither one message nor broken. The framer's bytes are lost.
pub fn read_request(digits: &[u8], framer: &mut Framer, into: &mut Request) -> bool
    ensures asked { OnTrue result (Asks request_of (bytes_of digits.now) into.new) }
    ensures nothing { OnFalse result (AsksNothing (bytes_of digits.now)) }
    ensures same { OnFalse result (into.new ≡ into.old) }
{
    match look_in(digits, framer) {
        Look::Whole => {
            read_found_request(framer, into);
            true
        }
        Look::NotWhole(cause) => {
            break_request(cause, into);
            true
        }
        Look::Nothing => false,
    }
}

/// Reads the HTTP request in these hexadecimal digits into `into`. A text that is broken gives a
/// broken request. Returns false and leaves `into` as it is if the word isn't digits, or if the
/// text is neither one message nor broken. The framer's bytes are lost.
pub fn read_get(digits: &[u8], framer: &mut Framer, into: &mut HttpRequest) -> bool
    ensures asked { OnTrue result (Asks get_of (bytes_of digits.now) into.new) }
    ensures nothing { OnFalse result (AsksNothing (bytes_of digits.now)) }
    ensures same { OnFalse result (into.new ≡ into.old) }
{
    match look_in(digits, framer) {
        Look::Whole => {
            read_found_get(framer, into);
            true
        }
        Look::NotWhole(cause) => {
            break_get(cause, into);
            true
        }
        Look::Nothing => false,
    }
}

/// Tells whether the bytes of these digits are one message or broken. Builds no request.
pub(crate) fn says(digits: &[u8], framer: &mut Framer) -> bool
    ensures yes { OnTrue result (Says (bytes_of digits.now)) }
    ensures no { OnFalse result (AsksNothing (bytes_of digits.now)) }
{
    match look_in(digits, framer) {
        Look::Whole => true,
        Look::NotWhole(_) => true,
        Look::Nothing => false,
    }
}

fn read_found_request(framer: &Framer, into: &mut Request)
    requires { IsSome framer.now.found }
    ensures asked { IsSomeAnd framer.now.found (λ message. into.new ≡ asked message) }
{
    match framer.message() {
        Some(message) => into.read(&message),
        None => unreachable!(),
    }
}

fn read_found_get(framer: &Framer, into: &mut HttpRequest)
    requires { IsSome framer.now.found }
    ensures asked { IsSomeAnd framer.now.found (λ message. into.new ≡ asked_get message) }
{
    match framer.message() {
        Some(get_message) => into.read(&get_message),
        None => unreachable!(),
    }
}

// Not inlined, so that a whole message needs no room for a second request.
#[inline(never)]
fn break_request(cause: Break, into: &mut Request)
    ensures broken { into.new ≡ broken_request cause }
{
    *into = Request::broken(cause);
}

#[inline(never)]
fn break_get(cause: Break, into: &mut HttpRequest)
    ensures broken { into.new ≡ broken_get cause }
{
    *into = HttpRequest::broken(cause);
}

fn look_in(digits: &[u8], framer: &mut Framer) -> Look
    ensures sees { SeesIn (bytes_of digits.now) framer.new result }
{
    if !are_digits(digits) {
        return Look::Nothing;
    }
    see(digits, framer)
}

fn see(digits: &[u8], framer: &mut Framer) -> Look
    requires { IsOk (decode_of digits.now) }
    ensures sees { (text : List ℕ) → decode_of digits.now ≡ Ok text → Sees text framer.new result }
{
    let rest = behind_newlines(digits);
    if rest.is_empty() {
        return Look::Nothing;
    }
    let seen = look_at(rest, framer);
    if rest.len() == digits.len() {
        return seen;
    }
    match seen {
        Look::Whole => Look::Nothing,
        Look::NotWhole(cause) => Look::NotWhole(cause),
        Look::Nothing => Look::Nothing,
    }
}

// Skips the digits of each CR and LF at the beginning.
fn behind_newlines(digits: &[u8]) -> &[u8]
    requires { IsOk (decode_of digits.now) }
    ensures rest { (text : List ℕ) → decode_of digits.now ≡ Ok text
        → decode_of result.now ≡ Ok (skip_newlines text) }
{
    let mut rest = digits;
    'newlines: while begins_with_newline(rest) {
        rest = rest.split_at(2).1;
    }
    rest
}

fn begins_with_newline(digits: &[u8]) -> bool
    ensures some { result ≡ true → 2 ≤ length digits.now }
    ensures test { (text : List ℕ) → decode_of digits.now ≡ Ok text → result ≡ newline_first text }
{
    if digits.len() < 2 {
        return false;
    }
    let mut byte = [0u8; 1];
    let _ = hex::decode_to_slice(digits.split_at(2).0, &mut byte);
    byte[0] == b'\r' || byte[0] == b'\n'
}

// Looks at a text that begins with neither CR nor LF. It first feeds all bytes but the last: a
// message that the framer finds in them has something after it.
fn look_at(digits: &[u8], framer: &mut Framer) -> Look
    requires hex { IsOk (decode_of digits.now) }
    requires some { 2 ≤ length digits.now }
    requires clean { (text : List ℕ) → decode_of digits.now ≡ Ok text → skip_newlines text ≡ text }
    ensures sees { (text : List ℕ) → decode_of digits.now ≡ Ok text → Sees text framer.new result }
{
    framer.reset();
    let count = (digits.len() / 2 - 1).min(ROOM);
    let (front, rest) = digits.split_at(2 * count);
    feed_digits(front, framer);
    match framer.next() {
        Step::Message => Look::Nothing,
        Step::More => look_at_last(rest, framer),
        Step::Bad => Look::NotWhole(Break::Bad),
        Step::TooLong => Look::NotWhole(Break::TooLong),
    }
}

// Looks at a text whose last byte isn't fed yet. The bytes before it aren't a whole message.
fn look_at_last(digits: &[u8], framer: &mut Framer) -> Look
    requires hex { IsOk (decode_of digits.now) }
    requires goes_on { framer.old.ended ≡ None }
    requires room { 2 * length framer.old.bytes + length digits.now ≤ 24576 }
    ensures sees { (front last : List ℕ) → decode_of digits.now ≡ Ok last → length last ≡ 1
        → skip_newlines front ≡ front → skip_newlines (front ++ last) ≡ front ++ last
        → Messages front [] Unfinished → Leads front [] framer.old.bytes
        → Sees (front ++ last) framer.new result }
{
    feed_digits(digits, framer);
    match framer.next() {
        Step::Message => Look::Whole,
        Step::More => Look::Nothing,
        Step::Bad => Look::NotWhole(Break::Bad),
        Step::TooLong => Look::NotWhole(Break::TooLong),
    }
}

// Feeds the bytes of these digits.
fn feed_digits(digits: &[u8], framer: &mut Framer)
    requires hex { IsOk (decode_of digits.now) }
    requires goes_on { framer.old.ended ≡ None }
    requires room { 2 * length framer.old.bytes + length digits.now ≤ 24576 }
    ensures bytes { (text : List ℕ) → decode_of digits.now ≡ Ok text
        → framer.new.bytes ≡ framer.old.bytes ++ text }
    ensures ended { framer.new.ended ≡ None }
{
    if digits.len() <= 2 * SHORT {
        feed_through(&mut [0u8; SHORT], digits, framer);
    } else {
        feed_many(digits, framer);
    }
}

// Not inlined, so that only a long message clears `ROOM` bytes.
#[inline(never)]
fn feed_many(digits: &[u8], framer: &mut Framer)
    requires hex { IsOk (decode_of digits.now) }
    requires goes_on { framer.old.ended ≡ None }
    requires room { 2 * length framer.old.bytes + length digits.now ≤ 24576 }
    ensures bytes { (text : List ℕ) → decode_of digits.now ≡ Ok text
        → framer.new.bytes ≡ framer.old.bytes ++ text }
    ensures ended { framer.new.ended ≡ None }
{
    feed_through(&mut [0u8; ROOM], digits, framer);
}

// Decodes digits into `room`, which must be large enough, and feeds their bytes.
fn feed_through(room: &mut [u8], digits: &[u8], framer: &mut Framer)
    requires hex { IsOk (decode_of digits.now) }
    requires enough { length digits.now ≤ 2 * length room.old }
    requires goes_on { framer.old.ended ≡ None }
    requires room { 2 * length framer.old.bytes + length digits.now ≤ 24576 }
    ensures bytes { (text : List ℕ) → decode_of digits.now ≡ Ok text
        → framer.new.bytes ≡ framer.old.bytes ++ text }
    ensures ended { framer.new.ended ≡ None }
{
    let (bytes, _) = room.split_at_mut(digits.len() / 2);
    let _ = hex::decode_to_slice(digits, bytes);
    framer.feed(bytes);
}
