//! The first two requests: they set the stream up and let it play.

ghost use Rattle.std.specs.Prelude.{◌≡◌, ◌≤◌};
ghost use Rattle.satip_client.specs.Requests.{play_request, setup_request};
ghost use Rattle.satip_client.specs.Exchanges.{ReadsAccepted, ReadsGrant, SetsUp, Starts, end_of_fault};
ghost use Rattle.satip_client.specs.Waits.{IsSettled};

use crate::asking::ask;
use crate::ending::RecordEnd;
use crate::grants::{ReplyFault, accept, grant_of};
use crate::heard::Heard;
use crate::lease::Lease;
use crate::page::Page;
use crate::reply::{ReplyRead, read_reply};
use satip_world::Conn;

fn end_of(fault: ReplyFault) -> RecordEnd
    ensures end { result ≡ end_of_fault fault }
{
    match fault {
        ReplyFault::Bad => RecordEnd::BadReply,
        ReplyFault::Refused(code) => RecordEnd::Refused(code),
    }
}

/// Sets up the page's stream. Its RTP datagrams go to `port`, and RTCP to the next one.
pub fn set_up<W: Conn>(
    wire: &mut W,
    port: u16,
    page: &mut Page,
    heard: &mut Heard,
) -> Result<Lease, RecordEnd>
    requires next { port ≤ 65534 }
    ensures sets_up { SetsUp W.tells (W.line wire.old) (W.line wire.new)
        (setup_request page.old.address page.old.query port) heard.old heard.new result }
    ensures address { page.new.address ≡ page.old.address }
{
    page.write_setup(port);
    ask(wire, page.bytes(), heard)?;
    match grant(heard.bytes()) {
        Ok((lease, length)) => {
            heard.pass(length);
            Ok(lease)
        }
        Err(end) => Err(end),
    }
}

// Returns the grant in the text, and the number of bytes of the reply.
fn grant(text: &[u8]) -> Result<(Lease, usize), RecordEnd>
    requires settled { IsSettled text.now }
    ensures grants { ReadsGrant text.now result }
{
    match read_reply(text) {
        ReplyRead::Reply(view) => match grant_of(&view) {
            Ok(grant) => match Lease::of(&grant) {
                Some(lease) => Ok((lease, view.length)),
                None => unreachable!(),
            },
            Err(fault) => Err(end_of(fault)),
        },
        ReplyRead::More => unreachable!(),
        ReplyRead::Bad => Err(RecordEnd::BadReply),
    }
}

/// Lets the stream play.
pub fn start<W: Conn>(
    wire: &mut W,
    lease: &Lease,
    page: &mut Page,
    heard: &mut Heard,
) -> Result<(), RecordEnd>
    ensures starts { Starts W.tells (W.line wire.old) (W.line wire.new)
        (play_request page.old.address lease.now.stream lease.now.session) heard.old result }
    ensures address { page.new.address ≡ page.old.address }
{
    page.write_play(lease);
    ask(wire, page.bytes(), heard)?;
    accepted(heard.bytes())
}

// Checks that the text accepts PLAY.
fn accepted(text: &[u8]) -> Result<(), RecordEnd>
    requires settled { IsSettled text.now }
    ensures accepts { ReadsAccepted text.now result }
{
    match read_reply(text) {
        ReplyRead::Reply(view) => match accept(&view, 2) {
            Ok(()) => Ok(()),
            Err(fault) => Err(end_of(fault)),
        },
        ReplyRead::More => unreachable!(),
        ReplyRead::Bad => Err(RecordEnd::BadReply),
    }
}
