//! The replies to RTSP requests.

ghost use Rattle.std.specs.Prelude.{◌≡◌, ◌≤◌};
ghost use Rattle.satip_base.specs.Output.{Wrote};
ghost use Rattle.satip_query.specs.Statuses.{IsStatus};
ghost use Rattle.satip_rtsp.specs.Replies.{play_reply, setup_reply, text_reply};
ghost use Rattle.satip_query.specs.declared.bodies.RefusalBody.TheVariants.{NoMoreSessions};
ghost use Rattle.satip_plain.specs.Steps.{closes as closes_connection, is_closing as is_closing_request, message_reply, refused_reply, reply_to_refused};
ghost use Rattle.satip_core.specs.Told.{told};

use crate::refusals::Refused;
use satip_base::{Out, Ports, SessionId};
use satip_frame::Break;
use satip_query::RefusalBody;
use satip_rtsp::{
    Refusal, Request, write_closing, write_plain, write_play, write_setup, write_text,
    write_unsupported,
};

/// Returns whether the connection is closed after the reply.
pub fn is_closing(request: &Request) -> bool
    ensures closing { result ≡ is_closing_request request.now }
{
    match &request.refusal {
        None => false,
        Some(refusal) => closes(refusal),
    }
}

fn closes(refusal: &Refusal) -> bool
    ensures closes { result ≡ closes_connection refusal.now }
{
    match refusal {
        Refusal::Broken => true,
        Refusal::TooLong => true,
        _ => false,
    }
}

/// Appends the reply to a refused request. A message that can't be parsed gets no CSeq, and an
/// unsupported required option is named (RFC 2326, section 12.32).
pub fn write_refusal(request: &Request, refused: &Refused, out: &mut Out)
    requires status { IsStatus refused.now.status }
    requires room { 256 ≤ out.old.reply_spare }
    ensures wrote { Wrote out.old (reply_to_refused request.now (told refused.now)) out.new }
{
    match request.refusal {
        None => write_refused(request.cseq, refused, out),
        Some(refusal) => write_cause(request.cseq, refused, refusal, out),
    }
}

// Appends the reply for a fault of the message itself.
#[tactic(auto, using(satip_rtsp::proofs::ReplyLemmas::reply_bounds))]
fn write_cause(cseq: Option<u32>, refused: &Refused, refusal: Refusal, out: &mut Out)
    requires status { IsStatus refused.now.status }
    requires room { 256 ≤ out.old.reply_spare }
    ensures wrote { Wrote out.old (message_reply cseq (told refused.now) refusal) out.new }
{
    match refusal {
        Refusal::Broken => write_closing(Break::Bad, out),
        Refusal::TooLong => write_closing(Break::TooLong, out),
        Refusal::Require(kept) => write_unsupported(cseq, &kept, out),
        Refusal::NoCseq => write_refused(cseq, refused, out),
        Refusal::Version => write_refused(cseq, refused, out),
        Refusal::Method => write_refused(cseq, refused, out),
        Refusal::Target => write_refused(cseq, refused, out),
        Refusal::Query(_) => write_refused(cseq, refused, out),
    }
}

// Appends the reply to a refused request that is a whole message.
#[tactic(auto, using(satip_rtsp::proofs::ReplyLemmas::reply_bounds))]
fn write_refused(cseq: Option<u32>, refused: &Refused, out: &mut Out)
    requires status { IsStatus refused.now.status }
    requires room { 256 ≤ out.old.reply_spare }
    ensures wrote { Wrote out.old (refused_reply cseq (told refused.now)) out.new }
{
    match refused.body {
        None => write_plain(cseq, refused.status, out),
        Some(body) => write_text(cseq, refused.status, body, out),
    }
}

/// Appends the reply to SETUP.
#[tactic(auto, using(satip_rtsp::proofs::ReplyLemmas::reply_bounds))]
pub fn write_set_up(
    cseq: Option<u32>,
    id: SessionId,
    timeout: u32,
    ports: Ports,
    number: u16,
    out: &mut Out,
)
    requires room { 256 ≤ out.old.reply_spare }
    ensures wrote { Wrote out.old (setup_reply cseq id timeout ports number) out.new }
{
    write_setup(cseq, id, timeout, ports, number, out);
}

/// Appends the reply to PLAY.
#[tactic(auto, using(satip_rtsp::proofs::ReplyLemmas::reply_bounds))]
pub fn write_playing(
    cseq: Option<u32>,
    id: SessionId,
    address: u32,
    number: u16,
    seq: u16,
    out: &mut Out,
)
    requires room { 256 ≤ out.old.reply_spare }
    ensures wrote { Wrote out.old (play_reply cseq id address number seq) out.new }
{
    write_play(cseq, id, address, number, seq, out);
}

/// Appends the refusal of a SETUP because no session can be created.
#[tactic(auto, using(satip_rtsp::proofs::ReplyLemmas::reply_bounds))]
pub fn write_full(cseq: Option<u32>, out: &mut Out)
    requires room { 256 ≤ out.old.reply_spare }
    ensures wrote { Wrote out.old (text_reply cseq 503 NoMoreSessions) out.new }
{
    write_text(cseq, 503, RefusalBody::NoMoreSessions, out);
}
