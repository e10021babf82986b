//! The texts of the replies: the status line, the number of the request, further lines, an empty
//! line.
ghost use Rattle.std.specs.Prelude.{◌≡◌, ◌≤◌, length};
ghost use Rattle.satip_base.specs.Output.{Wrote};
ghost use Rattle.satip_query.specs.Statuses.{IsStatus, phrase_of};
ghost use Rattle.satip_rtsp.specs.Replies.{base_line, closing_reply, closing_status, cseq_line, describe_head, lasting_session_line, options_reply, plain_reply, play_reply, rtp_info_line, session_line, setup_reply, status_line, text_reply, transport_line, unsupported_reply};
ghost use Rattle.satip_query.specs.Bodies.{body_part, number_line};

use crate::short::Short;
use satip_base::{Out, Ports, SessionId};
use satip_frame::Break;
use satip_query::{RefusalBody, phrase, write_body, write_number_line};

/// Appends the reply to OPTIONS, with the methods that are served (RFC 2326, section 10.1) and the
/// session that the request named.
#[tactic(auto, unfolding(crate::specs::Replies::options_reply))]
pub fn write_options(cseq: Option<u32>, session: Option<SessionId>, out: &mut Out)
    requires room { length (options_reply cseq session) ≤ out.old.reply_spare }
    ensures wrote { Wrote out.old (options_reply cseq session) out.new }
{
    write_status(200, out);
    write_cseq(cseq, out);
    out.write(b"Public: OPTIONS, DESCRIBE, SETUP, PLAY, TEARDOWN\r\n");
    write_session(session, out);
    out.write(b"\r\n");
}

/// Appends the reply to DESCRIBE up to its empty line, for a body of `size` bytes (RFC 2326,
/// section 10.2).
#[tactic(auto, unfolding(crate::specs::Replies::describe_head))]
pub fn write_describe(cseq: Option<u32>, address: u32, size: usize, out: &mut Out)
    requires room { length (describe_head cseq address size) ≤ out.old.reply_spare }
    ensures wrote { Wrote out.old (describe_head cseq address size) out.new }
{
    write_status(200, out);
    write_cseq(cseq, out);
    out.write(b"Content-Type: application/sdp\r\n");
    write_base(address, out);
    write_number_line(b"Content-Length: ", size as u64, out);
    out.write(b"\r\n");
}

/// Appends the reply to SETUP (RFC 2326, section 10.4; SAT>IP 1.2.2, 3.5.3). It has the session
/// with its timeout in seconds, the client's ports, and the number of the stream.
#[tactic(auto, unfolding(crate::specs::Replies::setup_reply))]
pub fn write_setup(
    cseq: Option<u32>,
    session: SessionId,
    timeout: u32,
    ports: Ports,
    stream: u16,
    out: &mut Out,
)
    requires room { length (setup_reply cseq session timeout ports stream) ≤ out.old.reply_spare }
    ensures wrote { Wrote out.old (setup_reply cseq session timeout ports stream) out.new }
{
    write_status(200, out);
    write_cseq(cseq, out);
    write_lasting_session(session, timeout, out);
    write_transport(ports, out);
    write_number_line(b"com.ses.streamID: ", stream as u64, out);
    out.write(b"\r\n");
}

/// Appends the reply to PLAY (RFC 2326, sections 10.5 and 12.33), with the sequence number of the
/// next datagram.
#[tactic(auto, unfolding(crate::specs::Replies::play_reply))]
pub fn write_play(
    cseq: Option<u32>,
    session: SessionId,
    address: u32,
    stream: u16,
    seq: u16,
    out: &mut Out,
)
    requires room { length (play_reply cseq session address stream seq) ≤ out.old.reply_spare }
    ensures wrote { Wrote out.old (play_reply cseq session address stream seq) out.new }
{
    write_status(200, out);
    write_cseq(cseq, out);
    write_session(Some(session), out);
    write_rtp_info(address, stream, seq, out);
    out.write(b"\r\n");
}

/// Appends the refusal of an option that the client requires, with the first bytes of its `Require`
/// header (RFC 2326, section 12.32).
#[tactic(auto, unfolding(crate::specs::Replies::unsupported_reply))]
pub fn write_unsupported(cseq: Option<u32>, kept: &Short, out: &mut Out)
    requires room { length (unsupported_reply cseq kept.now) ≤ out.old.reply_spare }
    ensures wrote { Wrote out.old (unsupported_reply cseq kept.now) out.new }
{
    write_status(551, out);
    write_cseq(cseq, out);
    out.write(b"Unsupported: ");
    out.write(kept.bytes());
    out.write(b"\r\n\r\n");
}

/// Appends a refusal with its reason (SAT>IP 1.2.2, 3.5.9). The status has a phrase.
#[tactic(auto, unfolding(crate::specs::Replies::text_reply))]
pub fn write_text(cseq: Option<u32>, status: u16, body: RefusalBody, out: &mut Out)
    requires status { IsStatus status }
    requires room { length (text_reply cseq status body) ≤ out.old.reply_spare }
    ensures wrote { Wrote out.old (text_reply cseq status body) out.new }
{
    write_status(status, out);
    write_cseq(cseq, out);
    write_body(body, out);
}

/// Appends the last reply before the connection is closed: 400 to a broken text, 413 to a message
/// whose body is too long.
#[tactic(auto, unfolding(crate::specs::Replies::closing_reply))]
pub fn write_closing(cause: Break, out: &mut Out)
    requires room { length (closing_reply cause) ≤ out.old.reply_spare }
    ensures wrote { Wrote out.old (closing_reply cause) out.new }
{
    write_status(closing_status(cause), out);
    out.write(b"Connection: close\r\n\r\n");
}

/// Appends a reply without content: to TEARDOWN, and every refusal without a reason. The status has
/// a phrase.
#[tactic(auto, unfolding(crate::specs::Replies::plain_reply))]
pub fn write_plain(cseq: Option<u32>, status: u16, out: &mut Out)
    requires status { IsStatus status }
    requires room { length (plain_reply cseq status) ≤ out.old.reply_spare }
    ensures wrote { Wrote out.old (plain_reply cseq status) out.new }
{
    write_status(status, out);
    write_cseq(cseq, out);
    out.write(b"\r\n");
}

#[tactic(auto, unfolding(crate::specs::Replies::status_line))]
fn write_status(status: u16, out: &mut Out)
    requires status { IsStatus status }
    requires room { length (status_line status) ≤ out.old.reply_spare }
    ensures wrote { Wrote out.old (status_line status) out.new }
{
    out.write(b"RTSP/1.0 ");
    out.write_number(status as u64);
    out.write(b" ");
    out.write(phrase(status));
    out.write(b"\r\n");
}

fn write_cseq(cseq: Option<u32>, out: &mut Out)
    requires room { length (cseq_line cseq) ≤ out.old.reply_spare }
    ensures wrote { Wrote out.old (cseq_line cseq) out.new }
{
    if let Some(number) = cseq {
        out.write(b"CSeq: ");
        out.write_number(number as u64);
        out.write(b"\r\n");
    }
}

fn write_session(session: Option<SessionId>, out: &mut Out)
    requires room { length (session_line session) ≤ out.old.reply_spare }
    ensures wrote { Wrote out.old (session_line session) out.new }
{
    if let Some(id) = session {
        out.write(b"Session: ");
        out.write_id(id);
        out.write(b"\r\n");
    }
}

fn write_base(address: u32, out: &mut Out)
    requires room { length (base_line address) ≤ out.old.reply_spare }
    ensures wrote { Wrote out.old (base_line address) out.new }
{
    out.write(b"Content-Base: rtsp://");
    out.write_address(address);
    out.write(b"/\r\n");
}

fn write_lasting_session(id: SessionId, seconds: u32, out: &mut Out)
    requires room { length (lasting_session_line id seconds) ≤ out.old.reply_spare }
    ensures wrote { Wrote out.old (lasting_session_line id seconds) out.new }
{
    out.write(b"Session: ");
    out.write_id(id);
    out.write(b";timeout=");
    out.write_number(seconds as u64);
    out.write(b"\r\n");
}

fn write_transport(ports: Ports, out: &mut Out)
    requires room { length (transport_line ports) ≤ out.old.reply_spare }
    ensures wrote { Wrote out.old (transport_line ports) out.new }
{
    out.write(b"Transport: RTP/AVP;unicast;client_port=");
    out.write_number(ports.rtp as u64);
    out.write(b"-");
    out.write_number(ports.rtcp as u64);
    out.write(b"\r\n");
}

fn write_rtp_info(address: u32, stream: u16, seq: u16, out: &mut Out)
    requires room { length (rtp_info_line address stream seq) ≤ out.old.reply_spare }
    ensures wrote { Wrote out.old (rtp_info_line address stream seq) out.new }
{
    out.write(b"RTP-Info: url=rtsp://");
    out.write_address(address);
    out.write(b"/stream=");
    out.write_number(stream as u64);
    write_number_line(b";seq=", seq as u64, out);
}

fn closing_status(cause: Break) -> u16
    ensures status { result ≡ closing_status cause }
{
    match cause {
        Break::Bad => 400,
        Break::TooLong => 413,
    }
}
