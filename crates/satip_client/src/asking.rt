//! A request and its reply.

ghost use Rattle.std.specs.Prelude.{◌<◌, [], length, IfNone, IfSome};
ghost use Rattle.satip_client.specs.Waits.{Asks, IsOpen, IsSettled, StaysOpen};

use crate::ending::RecordEnd;
use crate::heard::Heard;
use crate::reply::{ReplyRead, bytes_needed, read_reply};
use satip_base::Put;
use satip_world::{Conn, Received};

/// The number of idle receives after which a reply isn't awaited any more.
const IDLES: u32 = 10000;

/// Sends a request, and receives until its reply is whole or can't become whole.
pub(crate) fn ask<W: Conn>(wire: &mut W, request: &[u8], heard: &mut Heard) -> Result<(), RecordEnd>
    ensures asks { Asks W.tells (W.line wire.old) (W.line wire.new) request.now
        heard.old heard.new result }
{
    match wire.send(request) {
        Put::Whole => await_reply(wire, heard),
        Put::Failed => Err(RecordEnd::PeerFault),
    }
}

fn await_reply<W: Conn>(wire: &mut W, heard: &mut Heard) -> Result<(), RecordEnd>
    ensures awaits { Asks W.tells (W.line wire.old) (W.line wire.new) []
        heard.old heard.new result }
{
    let mut idles: u32 = 0;
    let mut needed = 0;
    'turns: loop {
        let Some(more) = look(heard.bytes(), needed) else {
            return Ok(());
        };
        needed = more;
        match heard.take_in(wire) {
            Received::Got(_) => {}
            Received::Idle => {
                idles += 1;
                if idles == IDLES {
                    return Err(RecordEnd::Silent);
                }
            }
            Received::End => return Err(RecordEnd::Closed),
            Received::Failed => return Err(RecordEnd::PeerFault),
        }
    }
}

// Returns the number of bytes before which the text stays open; `None` if it is settled. A text with
// fewer than `needed` bytes isn't read.
fn look(text: &[u8], needed: usize) -> Option<usize>
    requires waits { StaysOpen text.now needed }
    ensures settled { IfNone result (IsSettled text.now) }
    ensures is_open { IfSome result (λ more. IsOpen text.now) }
    ensures short { IfSome result (λ more. length text.now < 12288) }
    ensures stays { IfSome result (StaysOpen text.now) }
{
    if text.len() < needed {
        return Some(needed);
    }
    match read_reply(text) {
        ReplyRead::Reply(_) => None,
        ReplyRead::More => Some(bytes_needed(text)),
        ReplyRead::Bad => None,
    }
}
