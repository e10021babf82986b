//! A worker: connections one after another.

ghost use Rattle.std.specs.Prelude.{◌≡◌, ◌≢◌, ◌↔◌, ℕ, List, true, false};
ghost use Rattle.satip_world.specs.Counts.{Rises};
ghost use Rattle.satip_world.specs.Halls.{IsAtLimit};
ghost use Rattle.satip_worker.specs.DoorPauses.{PausesAtDoors, PausesOne};
ghost use Rattle.satip_worker.specs.Drawing.{draws_at, before_draw};
ghost use Rattle.satip_worker.specs.WorkerRun.{ServesOne, ServesDoors, doors_state};

use crate::connection::serve_connection;
use crate::draws::Draws;
use crate::room::Room;
use satip_base::Peer;
use satip_base::limits::LONGEST_HISTORY;
use satip_desk::WorkerKit;
use satip_plain::Service;
use satip_world::{ConnEnd, Door, DoorKind, Doors, Outlet, Pacer};
use std::sync::Wait;

/// How a worker ended.
#[derive(Clone, Copy, Debug, PartialEq, Eq)]
pub enum WorkerEnd {
    /// Its doors ended.
    Closed,
    /// Its doors failed.
    DoorsFault,
    /// The history of the server is full.
    Spent,
    /// Memory was refused.
    Want,
}

// Serves a connection that arrived, and hands it back.
fn serve_one<R: Wait + Sync, S: Service, D: Doors, O: Outlet, P: Pacer>(
    rt: &R,
    service: &mut S,
    kind: DoorKind,
    peer: Peer,
    mut conn: D::Conn,
    kit: &mut WorkerKit<D, O, P>,
    draws: &mut Draws,
    room: &mut Room,
) -> ConnEnd
    requires free { (O.outbox kit.old.outlet).held ≡ false }
    ensures free { (O.outbox kit.new.outlet).held ≡ false }
    ensures same { S.same service.old service.new }
    ensures key { kit.new.key ≡ kit.old.key }
    ensures serves { (key : List ℕ) (stream from : ℕ) → draws.old ≡ before_draw key stream from
        → (to : ℕ) × (draws.new ≡ before_draw key stream to)
        × ServesOne D.Conn.tells O.tells (record { kind = kind; peer = peer })
        (draws_at key stream from to)
        (doors_state S.may_want S.known D.hall O.outbox service.old kit.old)
        (doors_state S.may_want S.known D.hall O.outbox service.new kit.new)
        (D.Conn.line conn) result }
    ensures pauses { PausesOne 0 (D.Conn.line conn) (D.hall kit.old.doors) (D.hall kit.new.doors)
        (record { kind = kind; peer = peer }) result (P.pauses kit.old.pacer)
        (P.pauses kit.new.pacer) }
{
    let end = serve_connection(
        rt,
        service,
        kind,
        peer,
        &mut conn,
        &mut kit.outlet,
        &mut kit.pacer,
        draws,
        room,
    );
    kit.doors.back(conn, kind, peer, end);
    end
}

/// Serves the connections that arrive at the kit's doors, one after another. Hands each back before
/// it asks for the next. Ends when the doors end or fail, or when the service makes no entry of an
/// event. Draws from the stream `number` of the kit's key. Blocks.
pub fn run_worker<R: Wait + Sync, S: Service, D: Doors, O: Outlet, P: Pacer>(
    rt: &R,
    service: &mut S,
    kit: &mut WorkerKit<D, O, P>,
    number: u64,
    room: &mut Room,
) -> WorkerEnd
    requires free { (O.outbox kit.old.outlet).held ≡ false }
    ensures free { (O.outbox kit.new.outlet).held ≡ false }
    ensures same { S.same service.old service.new }
    ensures key { kit.new.key ≡ kit.old.key }

    // The entries, the connections that arrived and were handed back, and the reason of the end.
    ensures serves { ServesDoors D.Conn.tells O.tells kit.old.key number
        (doors_state S.may_want S.known D.hall O.outbox service.old kit.old)
        (doors_state S.may_want S.known D.hall O.outbox service.new kit.new) result }

    // The pauses: one for each time that no connection came, and one for each receive of a
    // connection that found nothing.
    ensures pauses { PausesAtDoors 0 (D.hall kit.old.doors) (D.hall kit.new.doors)
        (P.pauses kit.old.pacer) (P.pauses kit.new.pacer) }

    // The cause of each end.
    ensures closed { (result ≡ WorkerEnd.Closed) ↔ ((D.hall kit.new.doors).ended ≡ true) }
    ensures at_limit { result ≡ WorkerEnd.Closed → D.by_limit → IsAtLimit (D.hall kit.new.doors) }
    ensures doors_fault { result ≡ WorkerEnd.DoorsFault
        → Rises (D.hall kit.old.doors).faults (D.hall kit.new.doors).faults }
    ensures calm { result ≢ WorkerEnd.DoorsFault
        → (D.hall kit.new.doors).faults ≡ (D.hall kit.old.doors).faults }
    ensures spent { result ≡ WorkerEnd.Spent → (S.known service.new).length ≡ LONGEST_HISTORY }
    ensures want { result ≡ WorkerEnd.Want → S.may_want service.old ≡ true }
{
    let mut draws = Draws::make(&kit.key, number);
    for _ in rt.forever() {
        match kit.doors.next() {
            Door::Came { kind, peer, conn } => {
                match serve_one(rt, service, kind, peer, conn, kit, &mut draws, room) {
                    ConnEnd::Done => {}
                    ConnEnd::ReadFault => {}
                    ConnEnd::WriteFault => {}
                    ConnEnd::Spent => return WorkerEnd::Spent,
                    ConnEnd::Want => return WorkerEnd::Want,
                }
            }
            Door::Idle => kit.pacer.pause(),
            Door::End => return WorkerEnd::Closed,
            Door::Failed => return WorkerEnd::DoorsFault,
        }
    }
    unreachable!()
}
