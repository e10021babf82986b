//! One event of an HTTP connection: a GET, a pull, or the close of its session.

ghost use Rattle.std.specs.Prelude.{◌≡◌, ◌+◌, ℕ, List, false};
ghost use Rattle.satip_plain.specs.declared.events.Event.{Event};
ghost use Rattle.satip_worker.specs.Drawing.{draw_at, before_draw};
ghost use Rattle.satip_worker.specs.Ends.{is_unmade};
ghost use Rattle.satip_worker.specs.HttpTurns.{GetTurns, PullTurns, ClosesSession};
ghost use Rattle.satip_worker.specs.Progress.{conn_state, staged};

use crate::draws::Draws;
use crate::turns::{end_of, make};
use satip_base::{Out, Peer, Put, SessionId};
use satip_http::HttpRequest;
use satip_plain::{Answer, Event, GetAnswer, Pulled, Service, ServiceFault};
use satip_world::{Conn, ConnEnd, Outlet};

/// The outcome of a GET.
#[derive(Clone, Copy, Debug, PartialEq, Eq)]
pub(crate) enum Getting {
    /// A session started, and its head was sent.
    Started(SessionId),
    /// A session started, and a prefix of its head was sent.
    StartCut(SessionId),
    /// A refusal was sent.
    Refused,
    /// A prefix of a refusal was sent.
    RefusalCut,
    /// The GET has no entry.
    Unmade(ServiceFault),
}

/// The outcome of a pull.
#[derive(Clone, Copy, Debug, PartialEq, Eq)]
pub(crate) enum Pulling {
    /// Packets were sent.
    Sent,
    /// A prefix of some packets was sent.
    Cut,
    /// No packet was queued.
    Empty,
    /// No such session lives.
    Gone,
    /// The pull has no entry.
    Unmade(ServiceFault),
}

/// Executes the GET, and sends its head or its refusal.
pub(crate) fn get<S: Service, C: Conn, O: Outlet>(
    service: &mut S,
    peer: Peer,
    draws: &mut Draws,
    request: HttpRequest,
    out: &mut Out,
    outlet: &mut O,
    conn: &mut C,
) -> Getting
    requires free { (O.outbox outlet.old).held ≡ false }
    ensures free { (O.outbox outlet.new).held ≡ false }
    ensures same { S.same service.old service.new }
    ensures input { (C.line conn.new).ended ≡ (C.line conn.old).ended }
    ensures idles { (C.line conn.new).idles ≡ (C.line conn.old).idles }
    ensures draws { (key : List ℕ) (stream number : ℕ) → draws.old ≡ before_draw key stream number
        → draws.new ≡ before_draw key stream (number + 1) }
    ensures turns { (key : List ℕ) (stream number : ℕ) → draws.old ≡ before_draw key stream number
        → GetTurns C.tells O.tells
        (conn_state S.may_want S.known O.outbox C.line service.old outlet.old conn.old)
        (conn_state S.may_want S.known O.outbox C.line service.new outlet.new conn.new)
        (Event.Get peer (draw_at key stream number) request) result }
{
    let draw = draws.next();
    let event = Event::Get {
        peer,
        draw,
        request,
    };
    match make(service, &event, out, outlet) {
        Err(fault) => Getting::Unmade(fault),
        Ok(Answer::Get(GetAnswer::Started(id))) => match conn.send(out.reply()) {
            Put::Whole => Getting::Started(id),
            Put::Failed => Getting::StartCut(id),
        },
        Ok(Answer::Get(GetAnswer::Refused(_))) => match conn.send(out.reply()) {
            Put::Whole => Getting::Refused,
            Put::Failed => Getting::RefusalCut,
        },
        Ok(_) => unreachable!(),
    }
}

/// Executes a pull, and sends the packets that it moved.
pub(crate) fn pull<S: Service, C: Conn, O: Outlet>(
    service: &mut S,
    session: SessionId,
    out: &mut Out,
    outlet: &mut O,
    conn: &mut C,
) -> Pulling
    requires free { (O.outbox outlet.old).held ≡ false }
    ensures free { (O.outbox outlet.new).held ≡ false }
    ensures same { S.same service.old service.new }
    ensures input { (C.line conn.new).ended ≡ (C.line conn.old).ended }
    ensures idles { (C.line conn.new).idles ≡ (C.line conn.old).idles }
    ensures turns { PullTurns C.tells O.tells
        (conn_state S.may_want S.known O.outbox C.line service.old outlet.old conn.old)
        (conn_state S.may_want S.known O.outbox C.line service.new outlet.new conn.new)
        (Event.Pull session) result }
{
    match make(service, &Event::Pull { session }, out, outlet) {
        Err(fault) => Pulling::Unmade(fault),
        Ok(Answer::Pulled(Pulled::Bytes(_))) => match conn.send(out.reply()) {
            Put::Whole => Pulling::Sent,
            Put::Failed => Pulling::Cut,
        },
        Ok(Answer::Pulled(Pulled::Empty)) => Pulling::Empty,
        Ok(Answer::Pulled(Pulled::Gone)) => Pulling::Gone,
        Ok(_) => unreachable!(),
    }
}

/// Closes the session. Returns `cause` as the end of the connection, unless the close has no entry.
pub(crate) fn close<S: Service, O: Outlet>(
    service: &mut S,
    session: SessionId,
    cause: ConnEnd,
    out: &mut Out,
    outlet: &mut O,
) -> ConnEnd
    requires cause { is_unmade cause ≡ false }
    requires free { (O.outbox outlet.old).held ≡ false }
    ensures free { (O.outbox outlet.new).held ≡ false }
    ensures same { S.same service.old service.new }
    ensures closes { ClosesSession O.tells
        (staged S.may_want S.known O.outbox service.old outlet.old)
        (staged S.may_want S.known O.outbox service.new outlet.new)
        session cause result }
{
    match make(service, &Event::Close { session }, out, outlet) {
        Err(fault) => end_of(fault),
        Ok(_) => cause,
    }
}
