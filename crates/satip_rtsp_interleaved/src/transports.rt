//! The channels in a `Transport` header (RFC 2326, sections 10.12 and 12.39).
ghost use Rattle.std.specs.Prelude.{◌≡◌, take, drop, Some};
ghost use Rattle.satip_base.specs.Numbers.{number_of};
ghost use Rattle.satip_rtsp_interleaved.specs.Channels.{interleaved_by, channels_by, is_tcp_text, is_channel_text, channels_first, channels_text, channels_beginning, both_channels};
ghost use Rattle.satip_rtsp.specs.Transports.{parameters};

use satip_base::{Ports, read_number};
use satip_rtsp::{text_of, trimmed};
use satip_tune::cut;

/// Returns the channels of the first acceptable transport in the value of a `Transport` header, as
/// ports: channel c is port c + 1. The first parameter of an acceptable transport is `RTP/AVP/TCP`.
/// Its first parameter that begins with `interleaved=` continues with `a-b`, two different numbers
/// up to 255. Or it continues with `a` up to 254, which means `a` and the next channel. A UDP
/// transport is never acceptable.
#[tactic(auto, unfolding(crate::specs::Channels::interleaved_by))]
pub fn interleaved(value: &[u8]) -> Option<Ports>
    ensures channels { result ≡ interleaved_by value.now }
{
    let mut left = Some(value);
    while let Some(rest) = left {
        let (transport, next) = cut(rest, b',');
        if let Some(ports) = channels_of(transport) {
            return Some(ports);
        }
        left = next;
    }
    None
}

#[tactic(auto, unfolding(crate::specs::Channels::channels_by))]
fn channels_of(transport: &[u8]) -> Option<Ports>
    ensures channels { result ≡ channels_by transport.now }
{
    if is_tcp(cut(transport, b';').0) {
        first_channels(transport)
    } else {
        None
    }
}

fn first_channels(transport: &[u8]) -> Option<Ports>
    ensures first { result ≡ channels_first (parameters transport.now) }
{
    let mut left = Some(transport);
    while let Some(rest) = left {
        let (parameter, next) = cut(rest, b';');
        if gives_channels(parameter) {
            return read_channels(behind_name(trimmed(parameter)));
        }
        left = next;
    }
    None
}

#[tactic(auto, unfolding(crate::specs::Channels::is_tcp_text))]
fn is_tcp(parameter: &[u8]) -> bool
    ensures test { result ≡ is_tcp_text parameter.now }
{
    trimmed(parameter).eq_ignore_ascii_case(b"RTP/AVP/TCP")
}

#[tactic(auto, unfolding(crate::specs::Channels::is_channel_text))]
fn gives_channels(parameter: &[u8]) -> bool
    ensures test { result ≡ is_channel_text parameter.now }
{
    name_of(trimmed(parameter)).eq_ignore_ascii_case(b"interleaved=")
}

// Returns the first twelve bytes of a text, the length of `interleaved=`.
fn name_of(text: &[u8]) -> &[u8]
    ensures name { result.now ≡ take 12 text.now }
{
    if text.len() < 12 { text } else { &text[..12] }
}

// Returns the text after them.
fn behind_name(text: &[u8]) -> &[u8]
    ensures rest { result.now ≡ drop 12 text.now }
{
    if text.len() < 12 { b"" } else { &text[12..] }
}

#[tactic(auto, unfolding(crate::specs::Channels::channels_text))]
fn read_channels(text: &[u8]) -> Option<Ports>
    ensures channels { result ≡ channels_text text.now }
{
    if !text.contains(&b'-') {
        return channels_from(text);
    }
    let (first, second) = cut(text, b'-');
    match (read_channel(first), read_channel(text_of(second))) {
        (Some(rtp), Some(rtcp)) => both_channels(rtp, rtcp),
        _ => None,
    }
}

#[tactic(auto, using(satip_rtsp::proofs::CseqLemmas::cseq_bounds))]
fn read_channel(text: &[u8]) -> Option<u8>
    ensures channel { result ≡ number_of 255 text.now }
{
    match read_number(text, 255) {
        None => None,
        Some(number) => Some(number as u8),
    }
}

fn both_channels(rtp: u8, rtcp: u8) -> Option<Ports>
    ensures channels { result ≡ both_channels (Some rtp) (Some rtcp) }
{
    if rtp == rtcp {
        return None;
    }
    Some(Ports {
        rtp: rtp as u16 + 1,
        rtcp: rtcp as u16 + 1,
    })
}

#[tactic(auto, using(satip_rtsp::proofs::CseqLemmas::cseq_bounds))]
fn channels_from(text: &[u8]) -> Option<Ports>
    ensures channels { result ≡ channels_beginning text.now }
{
    match read_number(text, 254) {
        None => None,
        Some(rtp) => Some(Ports {
            rtp: rtp as u16 + 1,
            rtcp: rtp as u16 + 2,
        }),
    }
}
