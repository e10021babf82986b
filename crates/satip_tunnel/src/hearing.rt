//! The messages that a connection of a tunnel receives, answered in order.
ghost use Rattle.std.specs.Prelude.{◌≡◌, ◌≢◌, ◌<◌, ℕ, List, ◌++◌, None, IsSome, IsSomeAnd, length, false};
ghost use Rattle.rand_chacha.specs.ChaCha.{ChaCha};
ghost use Rattle.satip_rtsp_interleaved.specs.Requests.{asked_by_tunnel};
ghost use Rattle.satip_frame.specs.Said.{Said};
ghost use Rattle.satip_frame.specs.Stream.{Broken};
ghost use Rattle.satip_frame.specs.Held.{capacity};
ghost use Rattle.satip_rtsp_interleaved.specs.Parts.{Parts};
ghost use Rattle.satip_rtsp_interleaved.specs.Held.{Held};
ghost use Rattle.satip_plain.specs.Suits.{closes};
ghost use Rattle.satip_tunnel.specs.Hearing.{Course, Stands, Listens, Hears, HearsPiece, talk_at};
ghost use Rattle.satip_tunnel.specs.Seats.{seated};

use crate::ends::{Heard, Way};
use crate::exchanges::{drain_all, exchange};
use satip_base::Out;
use satip_frame::{Break, Step};
use satip_interleave::{TunnelCaller, TunnelRoom, request};
use satip_rtsp::Request;
use satip_rtsp_interleaved::{ChannelReply, Parter};
use satip_worker::Draws;
use satip_world::Conn;
use std::sync::Wait;

// Answers the bytes that are no message.
fn close<R: Wait + Sync, C: Conn>(
    caller: &mut TunnelCaller<R>,
    lane: u32,
    draws: &mut Draws,
    cause: Break,
    out: &mut Out,
    reply: &mut ChannelReply,
    conn: &mut C,
) -> Heard
    ensures hears { (course : Course) (received text : List ℕ) (messages : List Said)
        (parter : Held)
        → course.lane ≡ lane
        → Stands C.tells course (talk_at (seated caller.old.server.now caller.old.pass)
        (C.line conn.old) draws.old) received text messages parter
        → Parts text messages (Broken cause)
        → Hears C.tells course (talk_at (seated caller.new.server.now caller.new.pass)
        (C.line conn.new) draws.new) received text parter result }
    ensures input { (C.line conn.new).ended ≡ (C.line conn.old).ended }
    ensures over { result ≢ Heard.All }
{
    match exchange(
        caller,
        lane,
        draws,
        Request::broken(cause),
        out,
        reply,
        conn,
    ) {
        Way::On => Heard::Closed,
        Way::Broken => Heard::Broken,
        Way::Lost => Heard::Lost,
        Way::Spent => Heard::Spent,
    }
}

// Returns the request of the message that was found.
fn found_request(parter: &Parter) -> Request
    requires { IsSome parter.now.found }
    ensures asked { IsSomeAnd parter.now.found (λ message. result ≡ asked_by_tunnel message) }
    ensures whole { closes result.refusal ≡ false }
{
    match parter.message() {
        Some(message) => request(&message),
        None => unreachable!(),
    }
}

// Answers all whole messages that the parter holds.
fn answer<R: Wait + Sync, C: Conn>(
    caller: &mut TunnelCaller<R>,
    lane: u32,
    draws: &mut Draws,
    room: &mut TunnelRoom,
    conn: &mut C,
) -> Heard
    ensures hears { (course : Course) (received text : List ℕ) (messages : List Said)
        → course.lane ≡ lane
        → Stands C.tells course (talk_at (seated caller.old.server.now caller.old.pass)
        (C.line conn.old) draws.old) received text messages room.old.parter
        → Hears C.tells course (talk_at (seated caller.new.server.now caller.new.pass)
        (C.line conn.new) draws.new) received text room.new.parter result }
    ensures input { (C.line conn.new).ended ≡ (C.line conn.old).ended }
    ensures goes_on { result ≡ Heard.All → room.new.parter.ended ≡ None }
    ensures space { result ≡ Heard.All → length room.new.parter.bytes < capacity }
{
    'messages: loop {
        match room.parter.next() {
            Step::Message => {
                let request = found_request(&room.parter);
                match exchange(
                    caller,
                    lane,
                    draws,
                    request,
                    &mut room.out,
                    &mut room.reply,
                    conn,
                ) {
                    Way::On => {}
                    Way::Broken => return Heard::Broken,
                    Way::Lost => return Heard::Lost,
                    Way::Spent => return Heard::Spent,
                }
            }
            Step::More => return Heard::All,
            Step::Bad => {
                return close(
                    caller,
                    lane,
                    draws,
                    Break::Bad,
                    &mut room.out,
                    &mut room.reply,
                    conn,
                );
            }
            Step::TooLong => {
                return close(
                    caller,
                    lane,
                    draws,
                    Break::TooLong,
                    &mut room.out,
                    &mut room.reply,
                    conn,
                );
            }
        }
    }
}

// Appends bytes to those that came before, and answers all whole messages.
fn hear<R: Wait + Sync, C: Conn>(
    caller: &mut TunnelCaller<R>,
    lane: u32,
    draws: &mut Draws,
    piece: &[u8],
    room: &mut TunnelRoom,
    conn: &mut C,
) -> Heard
    requires goes_on { room.old.parter.ended ≡ None }
    requires space { length room.old.parter.bytes < capacity }
    ensures hears { (course : Course) (received text : List ℕ)
        → course.lane ≡ lane
        → Listens C.tells course (talk_at (seated caller.old.server.now caller.old.pass)
        (C.line conn.old) draws.old) received text room.old.parter
        → Hears C.tells course (talk_at (seated caller.new.server.now caller.new.pass)
        (C.line conn.new) draws.new) received (text ++ piece.now) room.new.parter result }
    ensures input { (C.line conn.new).ended ≡ (C.line conn.old).ended }
    ensures goes_on { result ≡ Heard.All → room.new.parter.ended ≡ None }
    ensures space { result ≡ Heard.All → length room.new.parter.bytes < capacity }
{
    let mut rest = piece;
    'piece: while !rest.is_empty() {
        let count = room.parter.feed(rest);
        rest = rest.split_at(count).1;
        match answer(caller, lane, draws, room, conn) {
            Heard::All => {}
            Heard::Closed => return Heard::Closed,
            Heard::Broken => return Heard::Broken,
            Heard::Lost => return Heard::Lost,
            Heard::Spent => return Heard::Spent,
        }
    }
    Heard::All
}

// Drains the lane, unless the caller has seen more entries than `before`.
fn drain_unanswered<R: Wait + Sync, C: Conn>(
    caller: &mut TunnelCaller<R>,
    lane: u32,
    before: u64,
    out: &mut Out,
    conn: &mut C,
) -> Heard
    ensures hears { (course : Course) (draws : ChaCha) (received text : List ℕ) (parter : Held)
        → course.lane ≡ lane
        → course.pieces < length received
        → Listens C.tells course (talk_at (seated caller.old.server.now caller.old.pass)
        (C.line conn.old) draws) received text parter
        → HearsPiece C.tells course (talk_at (seated caller.new.server.now caller.new.pass)
        (C.line conn.new) draws) received text parter result }
    ensures input { (C.line conn.new).ended ≡ (C.line conn.old).ended }
{
    let seen = caller.pass.place();
    if seen > before {
        return Heard::All;
    }
    match drain_all(caller, lane, out, conn) {
        Way::On => Heard::All,
        Way::Broken => Heard::Broken,
        Way::Lost => Heard::Lost,
        Way::Spent => Heard::Spent,
    }
}

/// Hears a piece that was received: answers all messages that it completes, or drains the lane if
/// it completes none.
pub(crate) fn hear_piece<R: Wait + Sync, C: Conn>(
    caller: &mut TunnelCaller<R>,
    lane: u32,
    draws: &mut Draws,
    piece: &[u8],
    room: &mut TunnelRoom,
    conn: &mut C,
) -> Heard
    requires goes_on { room.old.parter.ended ≡ None }
    requires space { length room.old.parter.bytes < capacity }
    ensures hears { (course : Course) (received text : List ℕ)
        → course.lane ≡ lane
        → course.pieces < length received
        → Listens C.tells course (talk_at (seated caller.old.server.now caller.old.pass)
        (C.line conn.old) draws.old) received text room.old.parter
        → HearsPiece C.tells course (talk_at (seated caller.new.server.now caller.new.pass)
        (C.line conn.new) draws.new) received (text ++ piece.now) room.new.parter result }
    ensures input { (C.line conn.new).ended ≡ (C.line conn.old).ended }
    ensures goes_on { result ≡ Heard.All → room.new.parter.ended ≡ None }
    ensures space { result ≡ Heard.All → length room.new.parter.bytes < capacity }
{
    let before = caller.pass.place();
    match hear(caller, lane, draws, piece, room, conn) {
        Heard::All => drain_unanswered(caller, lane, before, &mut room.out, conn),
        Heard::Closed => Heard::Closed,
        Heard::Broken => Heard::Broken,
        Heard::Lost => Heard::Lost,
        Heard::Spent => Heard::Spent,
    }
}
