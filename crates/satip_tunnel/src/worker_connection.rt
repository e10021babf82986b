//! One connection of a tunnel's worker, of either kind.
ghost use Rattle.std.specs.Prelude.{◌≡◌, ◌≢◌, ℕ, List, length};
ghost use Rattle.satip_base.specs.declared.network.Peer.{Peer};
ghost use Rattle.satip_tunnel.specs.Seats.{seated};
ghost use Rattle.satip_worker.specs.Drawing.{before_draw, draw_at};
ghost use Rattle.satip_worker.specs.Pauses.{PausesServed};
ghost use Rattle.satip_tunnel.specs.ConnRun.{ServesConn, conn_end};

use crate::connection::serve_tunnel;
use crate::ends::TunnelEnd;
use crate::room::WorkerRoom;
use crate::silent::Silent;
use satip_base::Peer;
use satip_base::limits::LONGEST_HISTORY;
use satip_interleave::{TunnelCaller, TunnelRoom};
use satip_worker::{Draws, Room, serve_connection};
use satip_world::{Conn, ConnEnd, DoorKind, Pacer};
use std::sync::Wait;

// Returns how a connection of the tunnel is handed back.
fn conn_end(end: TunnelEnd) -> ConnEnd
    ensures end { result ≡ conn_end end }
{
    match end {
        TunnelEnd::Full => ConnEnd::Done,
        TunnelEnd::Broken => ConnEnd::Done,
        TunnelEnd::Done => ConnEnd::Done,
        TunnelEnd::ReadFault => ConnEnd::ReadFault,
        TunnelEnd::WriteFault => ConnEnd::WriteFault,
        TunnelEnd::Spent => ConnEnd::Spent,
    }
}

// Serves an RTSP connection.
fn serve_rtsp<R: Wait + Sync, C: Conn, P: Pacer>(
    caller: &mut TunnelCaller<R>,
    conn: &mut C,
    pacer: &mut P,
    draws: &mut Draws,
    room: &mut TunnelRoom,
) -> ConnEnd
    ensures serves { (peer : Peer) (key : List ℕ) (stream from : ℕ)
        → draws.old ≡ before_draw key stream from
        → (to : ℕ) × (draws.new ≡ before_draw key stream to)
        × ServesConn C.tells (draw_at key stream) from to
        (seated caller.old.server.now caller.old.pass)
        (seated caller.new.server.now caller.new.pass) (C.line conn.old)
        (record { kind = DoorKind.Rtsp; peer = peer; line = C.line conn.new; end = result }) }
    ensures pauses { PausesServed 1 (C.line conn.old) (C.line conn.new) (P.pauses pacer.old)
        (P.pauses pacer.new) }
    ensures spent { result ≡ ConnEnd.Spent → length caller.new.pass.seen ≡ LONGEST_HISTORY }
    ensures no_want { result ≢ ConnEnd.Want }
{
    conn_end(serve_tunnel(caller, conn, pacer, draws, room))
}

// Serves an HTTP connection. Its datagrams went to the lanes.
fn serve_http<R: Wait + Sync, C: Conn, P: Pacer>(
    caller: &mut TunnelCaller<R>,
    peer: Peer,
    conn: &mut C,
    pacer: &mut P,
    draws: &mut Draws,
    room: &mut Room,
) -> ConnEnd
    ensures serves { (key : List ℕ) (stream from : ℕ) → draws.old ≡ before_draw key stream from
        → (to : ℕ) × (draws.new ≡ before_draw key stream to)
        × ServesConn C.tells (draw_at key stream) from to
        (seated caller.old.server.now caller.old.pass)
        (seated caller.new.server.now caller.new.pass) (C.line conn.old)
        (record { kind = DoorKind.Http; peer = peer; line = C.line conn.new; end = result }) }
    ensures pauses { PausesServed 1 (C.line conn.old) (C.line conn.new) (P.pauses pacer.old)
        (P.pauses pacer.new) }
    ensures spent { result ≡ ConnEnd.Spent → length caller.new.pass.seen ≡ LONGEST_HISTORY }
    ensures no_want { result ≢ ConnEnd.Want }
{
    let rt = caller.rt;
    let mut silence = Silent::make();
    serve_connection(
        rt,
        caller,
        DoorKind::Http,
        peer,
        conn,
        &mut silence,
        pacer,
        draws,
        room,
    )
}

/// Serves a connection of either kind.
pub(crate) fn serve_kind<R: Wait + Sync, C: Conn, P: Pacer>(
    caller: &mut TunnelCaller<R>,
    kind: DoorKind,
    peer: Peer,
    conn: &mut C,
    pacer: &mut P,
    draws: &mut Draws,
    room: &mut WorkerRoom,
) -> ConnEnd
    ensures serves { (key : List ℕ) (stream from : ℕ) → draws.old ≡ before_draw key stream from
        → (to : ℕ) × (draws.new ≡ before_draw key stream to)
        × ServesConn C.tells (draw_at key stream) from to
        (seated caller.old.server.now caller.old.pass)
        (seated caller.new.server.now caller.new.pass) (C.line conn.old)
        (record { kind = kind; peer = peer; line = C.line conn.new; end = result }) }
    ensures pauses { PausesServed 1 (C.line conn.old) (C.line conn.new) (P.pauses pacer.old)
        (P.pauses pacer.new) }
    ensures spent { result ≡ ConnEnd.Spent → length caller.new.pass.seen ≡ LONGEST_HISTORY }
    ensures no_want { result ≢ ConnEnd.Want }
{
    match kind {
        DoorKind::Rtsp => serve_rtsp(caller, conn, pacer, draws, &mut room.rtsp),
        DoorKind::Http => serve_http(caller, peer, conn, pacer, draws, &mut room.http),
    }
}
