//! One RTSP connection: each message is one request, answered in order (RFC 2326, section 10).

ghost use Rattle.std.specs.Prelude.{◌≡◌, ◌+◌, ℕ, List, ◌++◌, None, false};
ghost use Rattle.satip_frame.specs.Held.{new_framer};
ghost use Rattle.satip_plain.specs.declared.events.Event.{Event};
ghost use Rattle.satip_plain.specs.Suits.{closes};
ghost use Rattle.satip_worker.specs.Drawing.{draw_at, draws_at, before_draw};
ghost use Rattle.satip_worker.specs.Turns.{Turns};
ghost use Rattle.satip_worker.specs.Hearing.{Course, Stands, Hears};
ghost use Rattle.satip_worker.specs.Pauses.{PausesWhenIdle};
ghost use Rattle.satip_worker.specs.Served.{ServesConn};
ghost use Rattle.satip_worker.specs.Progress.{conn_state};

use crate::draws::Draws;
use crate::room::Room;
use crate::turns::{Heard, Turn, end_of, make};
use satip_base::limits::PIECE;
use satip_base::{Out, Peer, Put};
use satip_frame::{Break, Next, Piece, next_asked};
use satip_plain::{Event, Service};
use satip_rtsp::Request;
use satip_world::{Conn, ConnEnd, DoorKind, Outlet, Pacer, Received};
use std::sync::Wait;

// Executes one request with the next draw, and sends its reply.
fn turn<S: Service, C: Conn, O: Outlet>(
    service: &mut S,
    peer: Peer,
    draws: &mut Draws,
    request: &Request,
    out: &mut Out,
    outlet: &mut O,
    conn: &mut C,
) -> Turn
    requires free { (O.outbox outlet.old).held ≡ false }
    ensures free { (O.outbox outlet.new).held ≡ false }
    ensures same { S.same service.old service.new }
    ensures input { (C.line conn.new).ended ≡ (C.line conn.old).ended }
    ensures idles { (C.line conn.new).idles ≡ (C.line conn.old).idles }
    ensures draws { (key : List ℕ) (stream number : ℕ) → draws.old ≡ before_draw key stream number
        → draws.new ≡ before_draw key stream (number + 1) }
    ensures turns { (key : List ℕ) (stream number : ℕ) → draws.old ≡ before_draw key stream number
        → Turns C.tells O.tells
        (conn_state S.may_want S.known O.outbox C.line service.old outlet.old conn.old)
        (conn_state S.may_want S.known O.outbox C.line service.new outlet.new conn.new)
        (Event.Request peer (draw_at key stream number) request.now)
        (closes request.now.refusal) result }
{
    let draw = draws.next();
    let event = Event::Request {
        peer,
        draw,
        request: *request,
    };
    match make(service, &event, out, outlet) {
        Err(fault) => Turn::Unmade(fault),
        Ok(_) => match conn.send(out.reply()) {
            Put::Whole => Turn::Sent,
            Put::Failed => Turn::Lost,
        },
    }
}

// Appends a piece to the bytes that came before, and answers all its requests.
fn hear<S: Service, C: Conn, O: Outlet>(
    service: &mut S,
    peer: Peer,
    draws: &mut Draws,
    piece: &[u8],
    room: &mut Room,
    outlet: &mut O,
    conn: &mut C,
) -> Heard
    requires goes_on { room.old.framer.ended ≡ None }
    requires free { (O.outbox outlet.old).held ≡ false }
    ensures free { (O.outbox outlet.new).held ≡ false }
    ensures same { S.same service.old service.new }
    ensures input { (C.line conn.new).ended ≡ (C.line conn.old).ended }
    ensures idles { (C.line conn.new).idles ≡ (C.line conn.old).idles }
    ensures hears { (course : Course) (text : List ℕ)
        → course.peer ≡ peer
        → Stands C.tells O.tells course
        (conn_state S.may_want S.known O.outbox C.line service.old outlet.old conn.old)
        draws.old text (room.old.framer.bytes ++ piece.now)
        → Hears C.tells O.tells course
        (conn_state S.may_want S.known O.outbox C.line service.new outlet.new conn.new)
        draws.new text room.new.framer.bytes result }
    ensures goes_on { result ≡ Heard.All → room.new.framer.ended ≡ None }
{
    let mut rest = Piece::new(piece);
    let mut request = Request::broken(Break::Bad);
    'requests: loop {
        match next_asked(&mut room.framer, &mut rest, &mut request) {
            Next::Asked => match turn(service, peer, draws, &request, &mut room.out, outlet, conn) {
                Turn::Sent => {}
                Turn::Lost => return Heard::Lost,
                Turn::Unmade(fault) => return Heard::Unmade(fault),
            },
            Next::Last => match turn(service, peer, draws, &request, &mut room.out, outlet, conn) {
                Turn::Sent => return Heard::Closed,
                Turn::Lost => return Heard::Lost,
                Turn::Unmade(fault) => return Heard::Unmade(fault),
            },
            Next::Nothing => return Heard::All,
        }
    }
}

/// Serves an RTSP connection. Answers its messages in order, until the input ends, a closing reply
/// was sent, a receive or a send fails, or an event has no entry.
pub(crate) fn serve_rtsp<R: Wait + Sync, S: Service, C: Conn, O: Outlet, P: Pacer>(
    rt: &R,
    service: &mut S,
    peer: Peer,
    conn: &mut C,
    outlet: &mut O,
    pacer: &mut P,
    draws: &mut Draws,
    room: &mut Room,
) -> ConnEnd
    requires new { room.old.framer ≡ new_framer }
    requires free { (O.outbox outlet.old).held ≡ false }
    ensures free { (O.outbox outlet.new).held ≡ false }
    ensures same { S.same service.old service.new }
    ensures serves { (key : List ℕ) (stream from : ℕ) → draws.old ≡ before_draw key stream from
        → (to : ℕ) × (draws.new ≡ before_draw key stream to)
        × ServesConn C.tells O.tells DoorKind.Rtsp peer (draws_at key stream from to)
        (conn_state S.may_want S.known O.outbox C.line service.old outlet.old conn.old)
        (conn_state S.may_want S.known O.outbox C.line service.new outlet.new conn.new) result }
    ensures pauses { PausesWhenIdle (C.line conn.old) (C.line conn.new) (P.pauses pacer.old)
        (P.pauses pacer.new) }
{
    let mut buf = [0; PIECE];
    for _ in rt.forever() {
        match conn.receive(&mut buf) {
            Received::Got(count) => {
                match hear(service, peer, draws, &buf[..count], room, outlet, conn) {
                    Heard::All => {}
                    Heard::Closed => return ConnEnd::Done,
                    Heard::Lost => return ConnEnd::WriteFault,
                    Heard::Unmade(fault) => return end_of(fault),
                }
            }
            Received::Idle => pacer.pause(),
            Received::End => return ConnEnd::Done,
            Received::Failed => return ConnEnd::ReadFault,
        }
    }
    unreachable!()
}
