//! One connection, of either kind.

ghost use Rattle.std.specs.Prelude.{◌≡◌, ℕ, List, true, false};
ghost use Rattle.satip_world.specs.Counts.{Rises};
ghost use Rattle.satip_worker.specs.Drawing.{draws_at, before_draw};
ghost use Rattle.satip_worker.specs.Pauses.{PausesWhenIdle};
ghost use Rattle.satip_worker.specs.Served.{ServesConn};
ghost use Rattle.satip_worker.specs.Progress.{conn_state, SameFaults};

use crate::draws::Draws;
use crate::http::serve_http;
use crate::room::Room;
use crate::rtsp::serve_rtsp;
use satip_base::Peer;
use satip_base::limits::LONGEST_HISTORY;
use satip_plain::Service;
use satip_world::{Conn, ConnEnd, DoorKind, Outlet, Pacer};
use std::sync::Wait;

/// Serves a connection until its input ends, its last answer closes it, a receive or a send fails,
/// or the service makes no entry of an event.
///
/// On an RTSP connection (RFC 2326) each message is one request, and bytes that are no message are
/// one more. The datagrams of each request leave by the outlet, and its reply is sent. On an HTTP
/// connection the first message is a GET (SAT>IP 1.2.2, 3.5.1); the packets of its session are sent
/// as they arrive. Each message takes one draw. Blocks; pauses while the connection is idle.
pub fn serve_connection<R: Wait + Sync, S: Service, C: Conn, O: Outlet, P: Pacer>(
    rt: &R,
    service: &mut S,
    kind: DoorKind,
    peer: Peer,
    conn: &mut C,
    outlet: &mut O,
    pacer: &mut P,
    draws: &mut Draws,
    room: &mut Room,
) -> ConnEnd
    requires free { (O.outbox outlet.old).held ≡ false }
    ensures free { (O.outbox outlet.new).held ≡ false }
    ensures same { S.same service.old service.new }

    // The entries, the bytes received and sent, and the reason of the end.
    ensures serves { (key : List ℕ) (stream from : ℕ) → draws.old ≡ before_draw key stream from
        → (to : ℕ) × (draws.new ≡ before_draw key stream to)
        × ServesConn C.tells O.tells kind peer (draws_at key stream from to)
        (conn_state S.may_want S.known O.outbox C.line service.old outlet.old conn.old)
        (conn_state S.may_want S.known O.outbox C.line service.new outlet.new conn.new) result }

    // The pauses: one for each receive that found nothing.
    ensures pauses { PausesWhenIdle (C.line conn.old) (C.line conn.new) (P.pauses pacer.old)
        (P.pauses pacer.new) }

    // After `Done`, no receive and no send had failed.
    ensures calm { result ≡ ConnEnd.Done → SameFaults (C.line conn.old) (C.line conn.new) }

    // The causes of the other ends.
    ensures read_fault { result ≡ ConnEnd.ReadFault
        → Rises (C.line conn.old).receive_faults (C.line conn.new).receive_faults }
    ensures write_fault { result ≡ ConnEnd.WriteFault
        → Rises (C.line conn.old).send_faults (C.line conn.new).send_faults }
    ensures spent { result ≡ ConnEnd.Spent → (S.known service.new).length ≡ LONGEST_HISTORY }
    ensures want { result ≡ ConnEnd.Want → S.may_want service.old ≡ true }
{
    draws.known();
    room.framer.reset();
    match kind {
        DoorKind::Rtsp => serve_rtsp(rt, service, peer, conn, outlet, pacer, draws, room),
        DoorKind::Http => serve_http(rt, service, peer, conn, outlet, pacer, draws, room),
    }
}
