//! One HTTP connection: a GET starts a session, whose packets are sent as they arrive, until the
//! session or the connection ends.

ghost use Rattle.std.specs.Prelude.{◌≡◌, ℕ, List, false};
ghost use Rattle.satip_frame.specs.Held.{new_framer};
ghost use Rattle.satip_worker.specs.Drawing.{draws_at, before_draw};
ghost use Rattle.satip_worker.specs.Pauses.{PausesWhenIdle};
ghost use Rattle.satip_worker.specs.Served.{ServesConn};
ghost use Rattle.satip_worker.specs.Streaming.{Streams};
ghost use Rattle.satip_worker.specs.Progress.{conn_state};

use crate::draws::Draws;
use crate::first::{First, read_first};
use crate::http_turns::{Getting, Pulling, close, get, pull};
use crate::room::Room;
use crate::turns::end_of;
use satip_base::limits::PIECE;
use satip_base::{Out, Peer, SessionId};
use satip_plain::Service;
use satip_world::{Conn, ConnEnd, DoorKind, Outlet, Pacer, Received};
use std::sync::Wait;

// Pulls a session until it ends. Closes it if a send fails, or if nothing is queued and a receive
// fails or the input ends. Drops the bytes that come in.
fn stream<R: Wait + Sync, S: Service, C: Conn, O: Outlet, P: Pacer>(
    rt: &R,
    service: &mut S,
    session: SessionId,
    conn: &mut C,
    outlet: &mut O,
    pacer: &mut P,
    out: &mut Out,
) -> ConnEnd
    requires open { (C.line conn.old).ended ≡ false }
    requires free { (O.outbox outlet.old).held ≡ false }
    ensures free { (O.outbox outlet.new).held ≡ false }
    ensures same { S.same service.old service.new }
    ensures streams { Streams C.tells O.tells session
        (conn_state S.may_want S.known O.outbox C.line service.old outlet.old conn.old)
        (conn_state S.may_want S.known O.outbox C.line service.new outlet.new conn.new) result }
    ensures pauses { PausesWhenIdle (C.line conn.old) (C.line conn.new) (P.pauses pacer.old)
        (P.pauses pacer.new) }
{
    let mut buf = [0; PIECE];
    for _ in rt.forever() {
        match pull(service, session, out, outlet, conn) {
            Pulling::Sent => {}
            Pulling::Cut => return close(service, session, ConnEnd::WriteFault, out, outlet),
            Pulling::Gone => return ConnEnd::Done,
            Pulling::Unmade(fault) => return end_of(fault),
            Pulling::Empty => match conn.receive(&mut buf) {
                Received::Got(_) => {}
                Received::Idle => pacer.pause(),
                Received::End => return close(service, session, ConnEnd::Done, out, outlet),
                Received::Failed => {
                    return close(service, session, ConnEnd::ReadFault, out, outlet);
                }
            },
        }
    }
    unreachable!()
}

/// Serves an HTTP connection: its first message is a GET, and all bytes after it are dropped.
pub(crate) fn serve_http<R: Wait + Sync, S: Service, C: Conn, O: Outlet, P: Pacer>(
    rt: &R,
    service: &mut S,
    peer: Peer,
    conn: &mut C,
    outlet: &mut O,
    pacer: &mut P,
    draws: &mut Draws,
    room: &mut Room,
) -> ConnEnd
    requires new { room.old.framer ≡ new_framer }
    requires free { (O.outbox outlet.old).held ≡ false }
    ensures free { (O.outbox outlet.new).held ≡ false }
    ensures same { S.same service.old service.new }
    ensures serves { (key : List ℕ) (stream from : ℕ) → draws.old ≡ before_draw key stream from
        → (to : ℕ) × (draws.new ≡ before_draw key stream to)
        × ServesConn C.tells O.tells DoorKind.Http peer (draws_at key stream from to)
        (conn_state S.may_want S.known O.outbox C.line service.old outlet.old conn.old)
        (conn_state S.may_want S.known O.outbox C.line service.new outlet.new conn.new) result }
    ensures pauses { PausesWhenIdle (C.line conn.old) (C.line conn.new) (P.pauses pacer.old)
        (P.pauses pacer.new) }
{
    match read_first(rt, conn, pacer, &mut room.framer) {
        First::Ended => ConnEnd::Done,
        First::Failed => ConnEnd::ReadFault,
        First::Asked(request) => {
            match get(service, peer, draws, request, &mut room.out, outlet, conn) {
                Getting::Started(session) => {
                    stream(rt, service, session, conn, outlet, pacer, &mut room.out)
                }
                Getting::StartCut(session) => {
                    close(service, session, ConnEnd::WriteFault, &mut room.out, outlet)
                }
                Getting::Refused => ConnEnd::Done,
                Getting::RefusalCut => ConnEnd::WriteFault,
                Getting::Unmade(fault) => end_of(fault),
            }
        }
    }
}
