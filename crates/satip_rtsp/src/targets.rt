//! Targets of requests: an optional origin, a path and an optional query (RFC 2326, section 3.2).
ghost use Rattle.std.specs.Prelude.{◌≡◌};
ghost use Rattle.std.specs.Option.{option_copied};
ghost use Rattle.satip_frame.specs.Origins.{after_front, after_host, host_size};
ghost use Rattle.satip_rtsp.specs.Targets.{parts_behind, parts_of, stream_in, target_of, path_without_slash};

use crate::texts::{begins_with, text_of};
use satip_base::read_number;
use satip_frame::{after_origin, rest_from};
use satip_tune::{cut, same_bytes};
use std::marker::Model;

/// A target: the stream that it names, and its query.
#[derive(Drop)]
pub struct Target<'a> {
    stream: Option<u16>,
    query: &'a [u8],
}

impl<'a> Model for Target<'a> {
    ghost use Rattle.satip_rtsp.specs.Targets.{TargetParts};

    ghost Value = { TargetParts };

    ghost view = { λ t. record { stream = t.stream; query = t.query.now } };
}

impl<'a> Target<'a> {
    /// Returns the target of a text. `*` is a target only if `star` is set; it names the whole
    /// server.
    #[tactic(auto, unfolding(crate::specs::Targets::target_of))]
    pub fn of(text: &'a [u8], star: bool) -> Option<Target<'a>>
        ensures target { result ≡ target_of star text.now }
    {
        if star && same_bytes(text, b"*") {
            return Some(Target {
                stream: None,
                query: b"",
            });
        }
        match after_origin(b"rtsp://", text) {
            None => read_parts(text),
            Some(rest) => read_parts_behind(rest),
        }
    }

    /// Returns the number of the stream that the target names.
    pub fn stream(&self) -> Option<u16>
        ensures stream { result ≡ self.now.stream }
    {
        self.stream
    }

    /// Returns the text of the query, which is empty if there is none.
    pub fn query(&self) -> &'a [u8]
        ensures query { result.now ≡ self.now.query }
    {
        self.query
    }
}

fn read_parts_behind(text: &[u8]) -> Option<Target<'_>>
    ensures target { result ≡ parts_behind text.now }
{
    let (path, rest) = cut(text, b'?');
    if path.is_empty() {
        return Some(Target {
            stream: None,
            query: text_of(rest),
        });
    }
    read_parts(text)
}

fn read_parts(text: &[u8]) -> Option<Target<'_>>
    ensures target { result ≡ parts_of text.now }
{
    let (path, rest) = cut(text, b'?');
    match read_stream(path) {
        None => None,
        Some(stream) => Some(Target {
            stream,
            query: text_of(rest),
        }),
    }
}

#[tactic(auto, using(crate::proofs::CseqLemmas::cseq_bounds), unfolding(crate::specs::Targets::stream_in))]
fn read_stream(path: &[u8]) -> Option<Option<u16>>
    ensures stream { result ≡ stream_in path.now }
{
    if same_bytes(path, b"/") {
        return Some(None);
    }
    if !begins_with(b"/stream=", path) {
        return None;
    }
    match read_number(without_slash(rest_from(path, 8)), 65535) {
        None => None,
        Some(number) => Some(Some(number as u16)),
    }
}

fn without_slash(path: &[u8]) -> &[u8]
    ensures path { result.now ≡ path_without_slash path.now }
{
    if path.ends_with(b"/") {
        &path[..path.len() - 1]
    } else {
        path
    }
}
