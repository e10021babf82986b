//! Replies with channels instead of UDP ports (RFC 2326, sections 10.12 and 12.39).
ghost use Rattle.std.specs.Prelude.{◌≡◌, ◌+◌, ◌≤◌, [], ◌++◌, length, vec_len, vec_capacity, decimal, IfSome, IfNone, IfOk};
ghost use Rattle.std.specs.Option.{option_copied, option_and_then};
ghost use Rattle.satip_rtsp_interleaved.specs.Turned.{after_ports_name, channel_line, ports_beside, told_ports, IsFirstLine, HasNoLine, turned, turned_line, before_return};
ghost use Rattle.satip_rtsp.specs.Transports.{port_at_most};

use itoa::Buffer;
use satip_base::limits::REPLY_BYTES;
use satip_base::{Ports, Want, read_number};
use satip_rtsp::text_of;
use satip_tune::{cut, same_bytes};
use std::alloc::Global;
use std::marker::Model;

// Most bytes of a turned reply: a line that is turned gets less than twice as long.
const ROOM: usize = 2 * REPLY_BYTES;

/// A reply for a client that uses channels. `make` allocates all its memory.
#[derive(Drop)]
pub struct ChannelReply {
    text: Vec<u8>,
}

impl Model for ChannelReply {
    ghost use Rattle.std.specs.Prelude.{List, ℕ, vec_capacity, ◌≤◌};

    ghost Value = { List ℕ };

    ghost view = { λ r. r.text.items };

    ghost invariant = { λ r. 262144 ≤ vec_capacity r.text };
}

impl ChannelReply {
    /// Allocates all memory; `Want` is out of memory. There is no reply yet.
    pub fn make(alloc: Global) -> Result<ChannelReply, Want>
        ensures empty { IfOk result (λ reply. reply ≡ []) }
    {
        match Vec::with_capacity(alloc, ROOM) {
            Ok(text) => Ok(ChannelReply { text }),
            Err(_) => Err(Want),
        }
    }

    /// Turns a reply of the server, which has at most 131072 bytes, and replaces the one before. In
    /// its head each line `Transport: RTP/AVP;unicast;client_port=p-q` becomes `Transport:
    /// RTP/AVP/TCP;unicast;interleaved=a-b`, in which a is p - 1 and b is q - 1. All other lines
    /// stay, and so do the bytes after the head's empty line.
    pub fn turn(&mut self, reply: &[u8])
        requires whole { length reply.now ≤ REPLY_BYTES }
        ensures turned { self.new ≡ turned reply.now }
    {
        self.text.clear();
        append_turned(reply, &mut self.text);
    }

    /// Returns the bytes of the turned reply.
    pub fn bytes(&self) -> &[u8]
        ensures bytes { result.now ≡ self.now }
    {
        &self.text
    }
}

fn append_turned(reply: &[u8], text: &mut Vec<u8>)
    requires empty { text.old.items ≡ [] }
    requires whole { length reply.now ≤ 131072 }
    requires room { 262144 ≤ vec_capacity text.old }
    ensures turned { text.new.items ≡ turned reply.now }
    ensures room { 262144 ≤ vec_capacity text.new }
{
    let mut left = reply;
    while let Some((line, rest)) = first_line(left) {
        if same_bytes(line, b"\r") {
            append(text, left);
            return;
        }
        append_line(line, text);
        append(text, b"\n");
        left = rest;
    }
    append(text, left);
}

// Appends bytes within the memory that the text has.
fn append(text: &mut Vec<u8>, bytes: &[u8])
    requires room { vec_len text.old + length bytes.now ≤ vec_capacity text.old }
    ensures items { text.new.items ≡ text.old.items ++ bytes.now }
    ensures count { vec_len text.new ≡ vec_len text.old + length bytes.now }
    ensures capacity { vec_capacity text.old ≤ vec_capacity text.new }
{
    text.extend_from_slice(bytes).unwrap();
}

// Returns the first line without its line feed, and the text after it; `None` if there is no line
// feed.
fn first_line(text: &[u8]) -> Option<(&[u8], &[u8])>
    ensures line { IfSome result (λ both. IsFirstLine text.now both.0.now both.1.now) }
    ensures last { IfNone result (HasNoLine text.now) }
{
    match cut(text, b'\n') {
        (line, Some(rest)) => Some((line, rest)),
        (_line, None) => None,
    }
}

fn append_line(line: &[u8], text: &mut Vec<u8>)
    requires room { vec_len text.old + length (turned_line line.now) ≤ vec_capacity text.old }
    ensures items { text.new.items ≡ text.old.items ++ turned_line line.now }
    ensures count { vec_len text.new ≡ vec_len text.old + length (turned_line line.now) }
    ensures capacity { vec_capacity text.old ≤ vec_capacity text.new }
{
    match ports_told(line) {
        None => append(text, line),
        Some(ports) => append_channels(ports, text),
    }
}

#[tactic(auto, unfolding(crate::specs::Turned::channel_line))]
fn append_channels(ports: Ports, text: &mut Vec<u8>)
    requires room { vec_len text.old + length (channel_line ports) ≤ vec_capacity text.old }
    ensures items { text.new.items ≡ text.old.items ++ channel_line ports }
    ensures count { vec_len text.new ≡ vec_len text.old + length (channel_line ports) }
    ensures capacity { vec_capacity text.old ≤ vec_capacity text.new }
{
    append(text, b"Transport: RTP/AVP/TCP;unicast;interleaved=");
    append_number(text, ports.rtp.saturating_sub(1));
    append(text, b"-");
    append_number(text, ports.rtcp.saturating_sub(1));
    append(text, b"\r");
}

fn append_number(text: &mut Vec<u8>, number: u16)
    requires room { vec_len text.old + length (decimal number) ≤ vec_capacity text.old }
    ensures items { text.new.items ≡ text.old.items ++ decimal number }
    ensures count { vec_len text.new ≡ vec_len text.old + length (decimal number) }
    ensures capacity { vec_capacity text.old ≤ vec_capacity text.new }
{
    append(text, Buffer::new().format(number).as_bytes());
}

#[tactic(auto, unfolding(crate::specs::Turned::told_ports))]
fn ports_told(line: &[u8]) -> Option<Ports>
    ensures told { result ≡ told_ports line.now }
{
    match without_return(behind_name(line)) {
        None => None,
        Some(text) => ports_between(text),
    }
}

fn behind_name(line: &[u8]) -> Option<&[u8]>
    ensures rest { option_copied result ≡ after_ports_name line.now }
{
    line.strip_prefix(b"Transport: RTP/AVP;unicast;client_port=")
}

fn without_return(line: Option<&[u8]>) -> Option<&[u8]>
    ensures text { option_copied result ≡ option_and_then before_return (option_copied line.entry) }
{
    match line {
        None => None,
        Some(line) => line.strip_suffix(b"\r"),
    }
}

fn ports_between(text: &[u8]) -> Option<Ports>
    ensures ports { result ≡ ports_beside text.now }
{
    let (first, second) = cut(text, b'-');
    match (read_port(first), read_port(text_of(second))) {
        (Some(rtp), Some(rtcp)) => Some(Ports { rtp, rtcp }),
        _ => None,
    }
}

#[tactic(auto, using(satip_rtsp::proofs::CseqLemmas::cseq_bounds))]
fn read_port(text: &[u8]) -> Option<u16>
    ensures port { result ≡ port_at_most 65535 text.now }
{
    match read_number(text, 65535) {
        None => None,
        Some(0) => None,
        Some(number) => Some(number as u16),
    }
}
