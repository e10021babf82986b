//! The first request of an HTTP connection (RFC 9112, section 2).

ghost use Rattle.std.specs.Prelude.{◌≡◌};
ghost use Rattle.satip_frame.specs.Held.{new_framer};
ghost use Rattle.satip_worker.specs.FirstAsked.{ReadsFirst};
ghost use Rattle.satip_worker.specs.Pauses.{PausesWhenIdle};

use satip_base::limits::PIECE;
use satip_frame::{Break, Framer, Next, Piece, next_asked};
use satip_http::HttpRequest;
use satip_world::{Conn, Pacer, Received};
use std::sync::Wait;

/// The outcome of reading up to the first message.
#[derive(Clone, Copy, Debug, PartialEq, Eq)]
pub(crate) enum First {
    /// The request of the first message, or of bytes that are no message.
    Asked(HttpRequest),
    /// The input ended before.
    Ended,
    /// A receive failed before.
    Failed,
}

/// Receives up to the first message, or up to bytes that can't become one. Blocks.
pub(crate) fn read_first<R: Wait + Sync, C: Conn, P: Pacer>(
    rt: &R,
    conn: &mut C,
    pacer: &mut P,
    framer: &mut Framer,
) -> First
    requires new { framer.old ≡ new_framer }
    ensures reads { ReadsFirst C.tells (C.line conn.old) (C.line conn.new) result }
    ensures pauses { PausesWhenIdle (C.line conn.old) (C.line conn.new) (P.pauses pacer.old)
        (P.pauses pacer.new) }
{
    let mut buf = [0; PIECE];
    let mut request = HttpRequest::broken(Break::Bad);
    for _ in rt.forever() {
        match conn.receive(&mut buf) {
            Received::Got(count) => {
                match next_asked(framer, &mut Piece::new(&buf[..count]), &mut request) {
                    Next::Asked => return First::Asked(request),
                    Next::Last => return First::Asked(request),
                    Next::Nothing => {}
                }
            }
            Received::Idle => pacer.pause(),
            Received::End => return First::Ended,
            Received::Failed => return First::Failed,
        }
    }
    unreachable!()
}
