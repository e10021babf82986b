//! The session and the transport in the headers of a request (RFC 2326, sections 12.37 and 12.39).
ghost use Rattle.std.specs.Prelude.{◌≡◌, ◌≤◌, IfSome};
ghost use Rattle.std.specs.List.{list_any};
ghost use Rattle.std.specs.Option.{option_copied};
ghost use Rattle.satip_rtsp.specs.Sessions.{session_in};
ghost use Rattle.satip_rtsp.specs.Transports.{ports_accepted, ports_by, parameters, is_rtp_text, is_unicast_text, is_port_text, ports_first, ports_text, ports_beginning, port_at_most};

use crate::requests::SessionName;
use crate::texts::{text_of, trimmed};
use satip_base::{Ports, SessionId, read_number};
use satip_frame::{begins_like, rest_from};
use satip_tune::cut;

/// Returns the session that the value of a `Session` header names.
pub fn session_name(value: Option<&[u8]>) -> SessionName
    ensures session { result ≡ session_in (option_copied value.entry) }
{
    match value {
        None => SessionName::Absent,
        Some(value) => match SessionId::read(trimmed(cut(value, b';').0)) {
            None => SessionName::Other,
            Some(id) => SessionName::Named(id),
        },
    }
}

/// Returns the ports of the first acceptable transport in the value of a `Transport` header.
#[tactic(auto, unfolding(crate::specs::Transports::ports_accepted))]
pub fn acceptable_ports(value: &[u8]) -> Option<Ports>
    ensures ports { result ≡ ports_accepted value.now }
{
    let mut left = Some(value);
    while let Some(rest) = left {
        let (transport, next) = cut(rest, b',');
        if let Some(ports) = ports_of(transport) {
            return Some(ports);
        }
        left = next;
    }
    None
}

#[tactic(auto, unfolding(crate::specs::Transports::ports_by))]
fn ports_of(transport: &[u8]) -> Option<Ports>
    ensures ports { result ≡ ports_by transport.now }
{
    if is_rtp(cut(transport, b';').0) && has_unicast(transport) {
        first_ports(transport)
    } else {
        None
    }
}

fn has_unicast(transport: &[u8]) -> bool
    ensures any { result ≡ list_any is_unicast_text (parameters transport.now) }
{
    let mut left = Some(transport);
    while let Some(rest) = left {
        let (parameter, next) = cut(rest, b';');
        if is_unicast(parameter) {
            return true;
        }
        left = next;
    }
    false
}

fn first_ports(transport: &[u8]) -> Option<Ports>
    ensures first { result ≡ ports_first (parameters transport.now) }
{
    let mut left = Some(transport);
    while let Some(rest) = left {
        let (parameter, next) = cut(rest, b';');
        if gives_ports(parameter) {
            return read_ports(rest_from(trimmed(parameter), 12));
        }
        left = next;
    }
    None
}

#[tactic(auto, unfolding(crate::specs::Transports::is_rtp_text))]
fn is_rtp(parameter: &[u8]) -> bool
    ensures test { result ≡ is_rtp_text parameter.now }
{
    let name = trimmed(parameter);
    name.eq_ignore_ascii_case(b"RTP/AVP") || name.eq_ignore_ascii_case(b"RTP/AVP/UDP")
}

#[tactic(auto, unfolding(crate::specs::Transports::is_unicast_text))]
fn is_unicast(parameter: &[u8]) -> bool
    ensures test { result ≡ is_unicast_text parameter.now }
{
    trimmed(parameter).eq_ignore_ascii_case(b"unicast")
}

#[tactic(auto, unfolding(crate::specs::Transports::is_port_text))]
fn gives_ports(parameter: &[u8]) -> bool
    ensures test { result ≡ is_port_text parameter.now }
{
    begins_like(b"client_port=", trimmed(parameter))
}

#[tactic(auto, unfolding(crate::specs::Transports::ports_text))]
fn read_ports(text: &[u8]) -> Option<Ports>
    ensures ports { result ≡ ports_text text.now }
{
    if !text.contains(&b'-') {
        return ports_from(text);
    }
    let (first, second) = cut(text, b'-');
    match (read_port(first, 65535), read_port(text_of(second), 65535)) {
        (Some(rtp), Some(rtcp)) => Some(Ports { rtp, rtcp }),
        _ => None,
    }
}

fn ports_from(text: &[u8]) -> Option<Ports>
    ensures ports { result ≡ ports_beginning text.now }
{
    match read_port(text, 65534) {
        None => None,
        Some(rtp) => Some(Ports { rtp, rtcp: rtp + 1 }),
    }
}

#[tactic(auto, using(crate::proofs::CseqLemmas::cseq_bounds))]
fn read_port(text: &[u8], most: u16) -> Option<u16>
    ensures port { result ≡ port_at_most most text.now }
    ensures within { IfSome result (λ n. n ≤ most) }
{
    match read_number(text, most as u64) {
        None => None,
        Some(0) => None,
        Some(number) => Some(number as u16),
    }
}
