//! A message: the words of its first line, and its headers.
ghost use Rattle.std.specs.Prelude.{◌≡◌, ℕ, ◌≤◌, length, map, All, codes};
ghost use Rattle.std.specs.Option.{option_copied};
ghost use Rattle.std.specs.Str.{str_eq_ignore_ascii_case};
ghost use Rattle.httparse.specs.Spans.{header_bytes, IsHeaderWithin};
ghost use Rattle.satip_frame.specs.Said.{first_value, body_length};

use httparse::spans::HeaderSpan;
use satip_base::read_number;
use std::marker::Model;

/// A message that a `Framer` found. It borrows the framer's bytes.
#[derive(Drop)]
pub struct Message<'a> {
    method: &'a [u8],
    target: &'a [u8],
    version: &'a [u8],
    head: &'a [u8],
    headers: &'a [HeaderSpan],
}

impl<'a> Model for Message<'a> {
    ghost use Rattle.std.specs.Prelude.{map, length, All};
    ghost use Rattle.httparse.specs.Spans.{header_bytes, IsHeaderWithin};
    ghost use Rattle.satip_frame.specs.Said.{Said};

    ghost Value = { Said };

    ghost view = { λ m. record {
      method = m.method.now;
      target = m.target.now;
      version = m.version.now;
      headers = map (header_bytes m.head.now) m.headers.now;
    } };

    ghost invariant = { λ m. All (IsHeaderWithin (length m.head.now)) m.headers.now };
}

impl<'a> Message<'a> {
    pub(crate) fn new(
        method: &'a [u8],
        target: &'a [u8],
        version: &'a [u8],
        head: &'a [u8],
        headers: &'a [HeaderSpan],
    ) -> Message<'a>
        requires { All (IsHeaderWithin (length head.now)) headers.now }
        ensures said { result ≡ record {
          method = method.now;
          target = target.now;
          version = version.now;
          headers = map (header_bytes head.now) headers.now;
        } }
    {
        Message {
            method,
            target,
            version,
            head,
            headers,
        }
    }

    /// Returns the method, the first word of the first line.
    pub fn method(&self) -> &'a [u8]
        ensures method { result.now ≡ self.now.method }
    {
        self.method
    }

    /// Returns the target, the second word.
    pub fn target(&self) -> &'a [u8]
        ensures target { result.now ≡ self.now.target }
    {
        self.target
    }

    /// Returns the version, the third word.
    pub fn version(&self) -> &'a [u8]
        ensures version { result.now ≡ self.now.version }
    {
        self.version
    }

    /// Returns the value of the first header with this name, without the blanks around it. The case
    /// of ASCII letters in a name doesn't matter (RFC 2326, section 4.2).
    pub fn header(&self, name: &[u8]) -> Option<&'a [u8]>
        ensures first { option_copied result ≡ first_value name.now self.now.headers }
    {
        first_header(self.head, self.headers, name)
    }
}

/// Returns the value of the first header with this name, among the headers at these places of a
/// head. The blanks around it are left out. The case of ASCII letters in a name is ignored
/// (RFC 2326, section 4.2).
pub fn first_header<'a>(head: &'a [u8], headers: &[HeaderSpan], name: &[u8]) -> Option<&'a [u8]>
    requires { All (IsHeaderWithin (length head.now)) headers.now }
    ensures first { option_copied result
        ≡ first_value name.now (map (header_bytes head.now) headers.now) }
{
    for header in headers {
        if is_named(header.name.of(head), name) {
            return Some(header.value.of(head));
        }
    }
    None
}

/// Returns the number of bytes of body that follow a head with headers at these places (RFC 2326,
/// section 12.14). It is 0 without `Content-Length`, and `None` if that occurs twice or isn't a
/// number below 2^64.
pub fn body_length(head: &[u8], headers: &[HeaderSpan]) -> Option<u64>
    requires { All (IsHeaderWithin (length head.now)) headers.now }
    ensures value { result ≡ body_length (map (header_bytes head.now) headers.now) }
{
    let mut said: Option<&[u8]> = None;
    for header in headers {
        if is_named(header.name.of(head), b"Content-Length") {
            if said.is_some() {
                return None;
            }
            said = Some(header.value.of(head));
        }
    }
    match said {
        Some(value) => read_number(value, u64::MAX),
        None => Some(0),
    }
}

fn is_named(name: &[u8], wanted: &[u8]) -> bool
    ensures test { result ≡ str_eq_ignore_ascii_case name.now wanted.now }
{
    name.eq_ignore_ascii_case(wanted)
}
