//! The scheme and the host that may begin a target (RFC 2326, section 3.2; RFC 9112, section
//! 3.2.2).

ghost use Rattle.std.specs.Prelude.{◌≡◌, ◌==◌, ◌||◌, length, take, drop};
ghost use Rattle.std.specs.Option.{option_copied};
ghost use Rattle.satip_frame.specs.Origins.{after_front, after_host, host_size, is_begun_like};

/// Returns the rest of a target after its scheme and host; `None` if it doesn't begin with them.
/// The scheme's letters may be of either case. The host has one or more bytes, up to the next `/`,
/// `?` or the end.
#[tactic(auto, unfolding(crate::specs::Origins::after_front))]
pub fn after_origin<'a>(scheme: &[u8], text: &'a [u8]) -> Option<&'a [u8]>
    ensures rest { option_copied result ≡ after_front scheme.now text.now }
{
    if begins_like(scheme, text) {
        after_host(rest_from(text, scheme.len()))
    } else {
        None
    }
}

fn after_host(text: &[u8]) -> Option<&[u8]>
    ensures rest { option_copied result ≡ after_host text.now }
{
    let host = host_length(text);
    if host == 0 {
        None
    } else {
        Some(rest_from(text, host))
    }
}

fn host_length(text: &[u8]) -> usize
    ensures length { result ≡ host_size text.now }
{
    let mut count = 0;
    for byte in text {
        if *byte == b'/' || *byte == b'?' {
            return count;
        }
        count += 1;
    }
    count
}

/// Returns whether a text begins with another; the case of ASCII letters doesn't matter.
pub fn begins_like(start: &[u8], text: &[u8]) -> bool
    ensures test { result ≡ is_begun_like start.now text.now }
{
    first_bytes(text, start.len()).eq_ignore_ascii_case(start)
}

/// Returns the text after its first bytes.
pub fn rest_from(text: &[u8], count: usize) -> &[u8]
    ensures rest { result.now ≡ drop count text.now }
{
    if count < text.len() {
        &text[count..]
    } else {
        b""
    }
}

/// Returns the first bytes of a text.
pub fn first_bytes(text: &[u8], count: usize) -> &[u8]
    ensures front { result.now ≡ take count text.now }
{
    if count < text.len() {
        &text[..count]
    } else {
        text
    }
}
