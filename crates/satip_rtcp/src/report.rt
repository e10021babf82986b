//! RTCP reports (RFC 3550, 6).

ghost use Rattle.std.specs.Prelude.{◌≡◌, ◌≢◌, ◌+◌, ◌<◌, ◌≤◌, length, replicate};
ghost use Rattle.std.specs.Int.{to_be_bytes, w16, w32};
ghost use Rattle.satip_base.specs.Output.{Extended, Sends};
ghost use Rattle.satip_rtcp.specs.Reports.{application, header, ntp_fraction_of, ntp_seconds_of, report, rtp_time_of, sender_report, source_description};
ghost use Rattle.satip_rtcp.specs.Kept.{report_with};

use crate::address::write_address;
use crate::ses1::ses1_text;
use crate::views::{Sender, StreamView};
use satip_base::limits::REPORT;
use satip_base::{Out, Strip};

// The first byte of a part: version 2 in its first two bits, a count in the last five (RFC 3550,
// 6.4.1).
const VERSION: u8 = 0x80;

// The types of the parts (RFC 3550, 12.1).
const SENDER_REPORT: u8 = 200;

const SOURCE_DESCRIPTION: u8 = 202;

const APPLICATION: u8 = 204;

/// Appends one report as a datagram (RFC 3550, 6.4.1, 6.5 and 6.7; SAT>IP 1.2.2, 3.5.13).
/// It has a sender report, a source description and an application-defined part with the SES1 text.
/// The canonical name in the description is the server's address.
pub fn write_report(view: &StreamView, sender: &Sender, out: &mut Out)
    requires count_room { out.old.count_spare ≢ 0 }
    requires room { REPORT ≤ out.old.datagram_spare }
    ensures sent { Sends out.old sender.now.to (report view.now sender.now) out.new }
    ensures bound { length (report view.now sender.now) ≤ REPORT }
{
    let mut text = Strip::new();
    ses1_text(view, &mut text);
    write_parts(text.bytes(), sender, out);
}

/// Appends one report with this SES1 text.
pub(crate) fn write_parts(text: &[u8], sender: &Sender, out: &mut Out)
    requires short { length text.now ≤ 1430 }
    requires count_room { out.old.count_spare ≢ 0 }
    requires room { REPORT ≤ out.old.datagram_spare }
    ensures sent { Sends out.old sender.now.to (report_with text.now sender.now) out.new }
    ensures bound { length (report_with text.now sender.now) ≤ REPORT }
{
    let mut address = Strip::new();
    write_address(sender.address, &mut address);
    out.begin(sender.to);
    extend_sender_report(sender, out);
    extend_description(sender.ssrc, address.bytes(), out);
    extend_application(sender.ssrc, text, out);
}

fn extend_sender_report(sender: &Sender, out: &mut Out)
    requires begun { 0 < length out.old.datagrams }
    requires room { 28 ≤ out.old.datagram_spare }
    ensures extended { Extended out.old (sender_report sender.now) out.new }
    ensures spare { out.new.datagram_spare + 28 ≡ out.old.datagram_spare }
{
    extend_header(VERSION, SENDER_REPORT, 28, out);
    extend_word(sender.ssrc, out);
    extend_word(ntp_seconds(sender.clock), out);
    extend_word(ntp_fraction(sender.clock), out);
    extend_word(rtp_time(sender.clock), out);
    extend_word(sender.datagrams, out);
    extend_word(sender.octets, out);
}

fn extend_description(ssrc: u32, name: &[u8], out: &mut Out)
    requires short { length name.now ≤ 15 }
    requires begun { 0 < length out.old.datagrams }
    requires room { 29 ≤ out.old.datagram_spare }
    ensures extended { Extended out.old (source_description ssrc name.now) out.new }
    ensures spare { out.old.datagram_spare ≤ out.new.datagram_spare + 29 }
{
    let zeros = 4 - (2 + name.len()) % 4;
    extend_header(
        VERSION + 1,
        SOURCE_DESCRIPTION,
        10 + name.len() + zeros,
        out,
    );
    extend_word(ssrc, out);
    out.extend(&[1, name.len() as u8]);
    out.extend(name);
    extend_zeros(zeros, out);
}

fn extend_application(ssrc: u32, text: &[u8], out: &mut Out)
    requires short { length text.now ≤ 1430 }
    requires begun { 0 < length out.old.datagrams }
    requires room { 1449 ≤ out.old.datagram_spare }
    ensures extended { Extended out.old (application ssrc text.now) out.new }
    ensures spare { out.old.datagram_spare ≤ out.new.datagram_spare + 1449 }
{
    let zeros = (4 - text.len() % 4) % 4;
    extend_header(VERSION, APPLICATION, 16 + text.len() + zeros, out);
    extend_word(ssrc, out);
    out.extend(b"SES1");
    extend_half(0, out);
    extend_half(text.len() as u16, out);
    out.extend(text);
    extend_zeros(zeros, out);
}

// Appends the first four bytes of a part, whose length in bytes counts them too.

fn extend_header(first: u8, kind: u8, length_of_part: usize, out: &mut Out)
    requires some { 4 ≤ length_of_part }
    requires few { length_of_part ≤ REPORT }
    requires begun { 0 < length out.old.datagrams }
    requires room { 4 ≤ out.old.datagram_spare }
    ensures extended { Extended out.old (header first kind length_of_part) out.new }
{
    out.extend(&[first, kind]);
    extend_half((length_of_part / 4 - 1) as u16, out);
}

fn extend_half(half: u16, out: &mut Out)
    requires begun { 0 < length out.old.datagrams }
    requires room { 2 ≤ out.old.datagram_spare }
    ensures extended { Extended out.old (to_be_bytes w16 half) out.new }
{
    out.extend(&half.to_be_bytes());
}

fn extend_word(word: u32, out: &mut Out)
    requires begun { 0 < length out.old.datagrams }
    requires room { 4 ≤ out.old.datagram_spare }
    ensures extended { Extended out.old (to_be_bytes w32 word) out.new }
{
    out.extend(&word.to_be_bytes());
}

fn extend_zeros(count: usize, out: &mut Out)
    requires few { count ≤ 4 }
    requires begun { 0 < length out.old.datagrams }
    requires room { count ≤ out.old.datagram_spare }
    ensures extended { Extended out.old (replicate count 0) out.new }
{
    out.extend([0u8; 4].split_at(count).0);
}

// Returns the seconds since 1900 (RFC 3550, 4), modulo 2^32.
fn ntp_seconds(clock: u64) -> u32
    ensures seconds { result ≡ ntp_seconds_of clock }
{
    ((clock / 1000 + 2208988800) % 0x1_0000_0000) as u32
}

// Returns the rest of the second in units of 2^-32 seconds, rounded down.
fn ntp_fraction(clock: u64) -> u32
    ensures fraction { result ≡ ntp_fraction_of clock }
{
    (clock % 1000 * 0x1_0000_0000 / 1000) as u32
}

// Returns the clock in units of 90 kHz (RFC 2250, 2), modulo 2^32.
fn rtp_time(clock: u64) -> u32
    ensures time { result ≡ rtp_time_of clock }
{
    (clock as u128 * 90 % 0x1_0000_0000) as u32
}
