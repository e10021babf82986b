//! The heads of responses: of a stream, and of a refusal.
ghost use Rattle.std.specs.Prelude.{◌≡◌, ◌≤◌, length};
ghost use Rattle.satip_base.specs.Output.{Wrote};
ghost use Rattle.satip_query.specs.Statuses.{IsStatus};
ghost use Rattle.satip_http.specs.Heads.{body_or_end, closing_line, http_phrase, http_refusal, http_status_line, start_head};

use satip_base::Out;
use satip_query::{RefusalBody, phrase, write_body};

/// Appends the head of a response whose body is the transport packets of a stream.
#[tactic(auto, unfolding(crate::specs::Heads::start_head))]
pub fn write_start(out: &mut Out)
    requires room { length start_head ≤ out.old.reply_spare }
    ensures wrote { Wrote out.old start_head out.new }
{
    write_status(200, out);
    out.write(b"Content-Type: video/mp2t\r\nConnection: close\r\n\r\n");
}

/// Appends a refusal, after which the connection is closed. The status has a phrase.
#[tactic(auto, unfolding(crate::specs::Heads::http_refusal))]
pub fn write_refusal(status: u16, body: Option<RefusalBody>, out: &mut Out)
    requires status { IsStatus status }
    requires room { length (http_refusal status body) ≤ out.old.reply_spare }
    ensures wrote { Wrote out.old (http_refusal status body) out.new }
{
    write_status(status, out);
    out.write(b"Connection: close\r\n");
    write_body_or_end(body, out);
}

fn write_body_or_end(body: Option<RefusalBody>, out: &mut Out)
    requires room { length (body_or_end body) ≤ out.old.reply_spare }
    ensures wrote { Wrote out.old (body_or_end body) out.new }
{
    match body {
        None => out.write(b"\r\n"),
        Some(body) => write_body(body, out),
    }
}

#[tactic(auto, unfolding(crate::specs::Heads::http_status_line))]
fn write_status(status: u16, out: &mut Out)
    requires status { IsStatus status }
    requires room { length (http_status_line status) ≤ out.old.reply_spare }
    ensures wrote { Wrote out.old (http_status_line status) out.new }
{
    out.write(b"HTTP/1.1 ");
    out.write_number(status as u64);
    out.write(b" ");
    out.write(phrase_over_http(status));
    out.write(b"\r\n");
}

fn phrase_over_http(status: u16) -> &'static [u8]
    requires status { IsStatus status }
    ensures phrase { result.now ≡ http_phrase status }
{
    if status == 505 {
        b"HTTP Version Not Supported"
    } else {
        phrase(status)
    }
}
