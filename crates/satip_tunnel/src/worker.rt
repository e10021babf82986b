//! A tunnel's worker: connections one after another.
ghost use Rattle.std.specs.Prelude.{◌≡◌, ◌≢◌, ◌↔◌, ℕ, List, length, true};
ghost use Rattle.satip_base.specs.Lists.{Begins};
ghost use Rattle.satip_turn.specs.Shown.{Keeps};
ghost use Rattle.satip_tunnel.specs.Seats.{seated};
ghost use Rattle.satip_worker.specs.DoorPauses.{PausesAtDoors, PausesOne};
ghost use Rattle.satip_worker.specs.Drawing.{before_draw, draw_at};
ghost use Rattle.satip_world.specs.Counts.{Rises};
ghost use Rattle.satip_world.specs.Halls.{IsAtLimit};
ghost use Rattle.satip_tunnel.specs.WorkerRun.{ServesDoors, ServesOne};

use crate::room::WorkerRoom;
use crate::worker_connection::serve_kind;
use satip_base::Peer;
use satip_base::limits::LONGEST_HISTORY;
use satip_desk::WorkerKit;
use satip_interleave::TunnelCaller;
use satip_worker::{Draws, WorkerEnd};
use satip_world::{ConnEnd, Door, DoorKind, Doors, Pacer};
use std::sync::Wait;

// Serves a connection that arrived, and hands it back.
fn serve_one<R: Wait + Sync, D: Doors, O, P: Pacer>(
    caller: &mut TunnelCaller<R>,
    kind: DoorKind,
    peer: Peer,
    mut conn: D::Conn,
    kit: &mut WorkerKit<D, O, P>,
    draws: &mut Draws,
    room: &mut WorkerRoom,
) -> ConnEnd
    ensures outlet { kit.new.outlet ≡ kit.old.outlet }
    ensures key { kit.new.key ≡ kit.old.key }
    ensures serves { (key : List ℕ) (stream from : ℕ) → draws.old ≡ before_draw key stream from
        → (to : ℕ) × (draws.new ≡ before_draw key stream to)
        × ServesOne D.Conn.tells (draw_at key stream) from to
        (record {
          seat = seated caller.old.server.now caller.old.pass;
          hall = D.hall kit.old.doors;
        })
        (record {
          seat = seated caller.new.server.now caller.new.pass;
          hall = D.hall kit.new.doors;
        })
        (record { kind = kind; peer = peer; line = D.Conn.line conn }) result }
    ensures pauses { PausesOne 1 (D.Conn.line conn) (D.hall kit.old.doors) (D.hall kit.new.doors)
        (record { kind = kind; peer = peer }) result (P.pauses kit.old.pacer)
        (P.pauses kit.new.pacer) }
    ensures spent { result ≡ ConnEnd.Spent → length caller.new.pass.seen ≡ LONGEST_HISTORY }
    ensures no_want { result ≢ ConnEnd.Want }
{
    let end = serve_kind(caller, kind, peer, &mut conn, &mut kit.pacer, draws, room);
    kit.doors.back(conn, kind, peer, end);
    end
}

/// Serves the connections that arrive at the kit's doors, one after another. Hands each back before
/// it asks for the next. Ends when the doors end or fail, or when the history is full; never as
/// `Want`. Blocks.
///
/// An RTSP connection is one of the tunnel (RFC 2326, section 10.12). It is handed back as done if
/// it was given no lane, or if its lane was broken. On an HTTP connection the packets of its
/// session are sent as they arrive (SAT>IP 1.2.2, 3.5.1). No datagram is sent: all went to the
/// lanes. Draws from the stream `number` of the kit's key.
pub fn run_tunnel_worker<R: Wait + Sync, D: Doors, O, P: Pacer>(
    caller: &mut TunnelCaller<R>,
    kit: &mut WorkerKit<D, O, P>,
    number: u64,
    room: &mut WorkerRoom,
) -> WorkerEnd
    ensures tunnel { caller.new.server.now ≡ caller.old.server.now }
    ensures pass { Keeps caller.old.pass caller.new.pass }
    ensures seen { Begins caller.old.pass.seen caller.new.pass.seen }
    ensures own { Begins caller.old.pass.own caller.new.pass.own }
    ensures outlet { kit.new.outlet ≡ kit.old.outlet }
    ensures key { kit.new.key ≡ kit.old.key }

    // The entries, the connections that arrived and were handed back, and the reason of the end.
    ensures serves { ServesDoors D.Conn.tells kit.old.key number
        (record {
          seat = seated caller.old.server.now caller.old.pass;
          hall = D.hall kit.old.doors;
        })
        (record {
          seat = seated caller.new.server.now caller.new.pass;
          hall = D.hall kit.new.doors;
        }) result }

    // The pauses: one for each time that no connection came, and one for each receive of a
    // connection that found nothing, except at most one of each connection.
    ensures pauses { PausesAtDoors 1 (D.hall kit.old.doors) (D.hall kit.new.doors)
        (P.pauses kit.old.pacer) (P.pauses kit.new.pacer) }

    // The cause of each end.
    ensures closed { (result ≡ WorkerEnd.Closed) ↔ ((D.hall kit.new.doors).ended ≡ true) }
    ensures at_limit { result ≡ WorkerEnd.Closed → D.by_limit → IsAtLimit (D.hall kit.new.doors) }
    ensures doors_fault { result ≡ WorkerEnd.DoorsFault
        → Rises (D.hall kit.old.doors).faults (D.hall kit.new.doors).faults }
    ensures calm { result ≢ WorkerEnd.DoorsFault
        → (D.hall kit.new.doors).faults ≡ (D.hall kit.old.doors).faults }
    ensures spent { result ≡ WorkerEnd.Spent → length caller.new.pass.seen ≡ LONGEST_HISTORY }
    ensures no_want { result ≢ WorkerEnd.Want }
{
    let rt = caller.rt;
    let mut draws = Draws::make(&kit.key, number);
    for _ in rt.forever() {
        match kit.doors.next() {
            Door::Came { kind, peer, conn } => {
                match serve_one(caller, kind, peer, conn, kit, &mut draws, room) {
                    ConnEnd::Done => {}
                    ConnEnd::ReadFault => {}
                    ConnEnd::WriteFault => {}
                    ConnEnd::Spent => return WorkerEnd::Spent,
                    ConnEnd::Want => unreachable!(),
                }
            }
            Door::Idle => kit.pacer.pause(),
            Door::End => return WorkerEnd::Closed,
            Door::Failed => return WorkerEnd::DoorsFault,
        }
    }
    unreachable!()
}
