//! One RTSP connection of a tunnel.
ghost use Rattle.std.specs.Prelude.{◌≡◌, ◌⊎◌, ℕ};
ghost use Rattle.satip_base.specs.Lists.{Begins};
ghost use Rattle.satip_rtsp_interleaved.specs.Held.{new_parter};
ghost use Rattle.satip_turn.specs.Shown.{Keeps};
ghost use Rattle.satip_tunnel.specs.Causes.{HasCause};
ghost use Rattle.satip_tunnel.specs.Ends.{unleft_end};
ghost use Rattle.satip_tunnel.specs.Hearing.{Talked, Left, Unleft, Finishes, talk_at};
ghost use Rattle.satip_tunnel.specs.Pauses.{Paused, PausesIdle};
ghost use Rattle.satip_tunnel.specs.Seats.{seated, made_since, SeesFull};
ghost use Rattle.satip_tunnel.specs.Served.{ServesTunnel};

use crate::ends::{Entered, Heard, TunnelEnd, Way};
use crate::events::{enter, leave};
use crate::exchanges::drain_all;
use crate::hearing::hear_piece;
use satip_base::limits::PIECE;
use satip_base::{Out, Spent};
use satip_interleave::{TunnelCaller, TunnelRoom};
use satip_worker::Draws;
use satip_world::{Conn, Pacer, Received};
use std::sync::Wait;

// Answers the messages that come in, and drains the lane while none does, up to an end. Pauses
// only while nothing comes in.
fn talk<R: Wait + Sync, C: Conn, P: Pacer>(
    caller: &mut TunnelCaller<R>,
    lane: u32,
    conn: &mut C,
    pacer: &mut P,
    draws: &mut Draws,
    room: &mut TunnelRoom,
) -> TunnelEnd
    requires new { room.old.parter ≡ new_parter }
    ensures talked { (pieces : ℕ) × (idles : ℕ) × (paused : ℕ)
        × Paused result idles paused (P.pauses pacer.old) (P.pauses pacer.new)
        × Talked C.tells (record {
          lane = lane;
          draws = draws.old;
          seat = seated caller.old.server.now caller.old.pass;
          line = C.line conn.old;
          pieces = pieces;
          idles = idles;
          paused = paused;
        }) (talk_at (seated caller.new.server.now caller.new.pass) (C.line conn.new) draws.new)
        result }
{
    let rt = caller.rt;
    let mut buf = [0; PIECE];
    for _ in rt.forever() {
        match conn.receive(&mut buf) {
            Received::Got(count) => {
                match hear_piece(caller, lane, draws, &buf[..count], room, conn) {
                    Heard::All => {}
                    Heard::Closed => return TunnelEnd::Done,
                    Heard::Broken => return TunnelEnd::Broken,
                    Heard::Lost => return TunnelEnd::WriteFault,
                    Heard::Spent => return TunnelEnd::Spent,
                }
            }
            Received::Idle => match drain_all(caller, lane, &mut room.out, conn) {
                Way::On => pacer.pause(),
                Way::Broken => return TunnelEnd::Broken,
                Way::Lost => return TunnelEnd::WriteFault,
                Way::Spent => return TunnelEnd::Spent,
            },
            Received::End => return TunnelEnd::Done,
            Received::Failed => return TunnelEnd::ReadFault,
        }
    }
    unreachable!()
}

// Returns the end of a connection whose lane can't be given up, since the history is full.
fn unleft(end: TunnelEnd) -> TunnelEnd
    ensures end { result ≡ unleft_end end }
{
    match end {
        TunnelEnd::Full => TunnelEnd::Full,
        TunnelEnd::Broken => TunnelEnd::Broken,
        TunnelEnd::Done => TunnelEnd::Spent,
        TunnelEnd::ReadFault => TunnelEnd::Spent,
        TunnelEnd::WriteFault => TunnelEnd::WriteFault,
        TunnelEnd::Spent => TunnelEnd::Spent,
    }
}

// Gives the lane up.
fn give_up<R: Wait + Sync>(
    caller: &mut TunnelCaller<R>,
    lane: u32,
    end: TunnelEnd,
    out: &mut Out,
) -> TunnelEnd
    ensures leaves { Left lane (seated caller.old.server.now caller.old.pass)
        (seated caller.new.server.now caller.new.pass) end result
        ⊎ Unleft (seated caller.old.server.now caller.old.pass)
        (seated caller.new.server.now caller.new.pass) end result }
{
    match leave(caller, lane, out) {
        Ok(()) => end,
        Err(Spent) => unleft(end),
    }
}

// Gives the lane up, unless the history was full.
fn finish<R: Wait + Sync>(
    caller: &mut TunnelCaller<R>,
    lane: u32,
    end: TunnelEnd,
    out: &mut Out,
) -> TunnelEnd
    ensures finishes { Finishes lane (seated caller.old.server.now caller.old.pass)
        (seated caller.new.server.now caller.new.pass) end result }
{
    match end {
        TunnelEnd::Full => give_up(caller, lane, TunnelEnd::Full, out),
        TunnelEnd::Broken => give_up(caller, lane, TunnelEnd::Broken, out),
        TunnelEnd::Done => give_up(caller, lane, TunnelEnd::Done, out),
        TunnelEnd::ReadFault => give_up(caller, lane, TunnelEnd::ReadFault, out),
        TunnelEnd::WriteFault => give_up(caller, lane, TunnelEnd::WriteFault, out),
        TunnelEnd::Spent => TunnelEnd::Spent,
    }
}

/// Serves one RTSP connection of a tunnel (RFC 2326, sections 10 and 10.12). The connection enters;
/// without a lane it ends. Its messages are answered in order, with the lane as their peer, and
/// each takes one draw. Each reply is sent with its transport rewritten to channels. After each
/// reply, after each piece that completes no message, and while nothing comes in, sends the frames
/// of the lane until none waits. While nothing comes in it then pauses. Ends when the input ends, a
/// closing reply was sent, a receive or a send fails, the lane is broken, or the history is full.
/// At last the connection leaves its lane. Blocks.
pub fn serve_tunnel<R: Wait + Sync, C: Conn, P: Pacer>(
    caller: &mut TunnelCaller<R>,
    conn: &mut C,
    pacer: &mut P,
    draws: &mut Draws,
    room: &mut TunnelRoom,
) -> TunnelEnd
    ensures tunnel { caller.new.server.now ≡ caller.old.server.now }
    ensures pass { Keeps caller.old.pass caller.new.pass }
    ensures seen { Begins caller.old.pass.seen caller.new.pass.seen }
    ensures own { Begins caller.old.pass.own caller.new.pass.own }

    // The entries, the bytes received and sent, and the reason of the end.
    ensures serves { ServesTunnel C.tells draws.old draws.new
        (seated caller.old.server.now caller.old.pass)
        (seated caller.new.server.now caller.new.pass)
        (C.line conn.old) (C.line conn.new) result }

    // The pauses: one after each receive that found nothing, unless the drain after the last such
    // receive ended the connection. And no more drains than that found no frame, except after a
    // request, and after a piece that completed no message.
    ensures pauses { PausesIdle C.tells caller.old.pass.own caller.new.pass.own
        (C.line conn.old) (C.line conn.new) (P.pauses pacer.old) (P.pauses pacer.new) result }

    // The cause of the end.
    ensures cause { HasCause result (made_since caller.old.pass caller.new.pass)
        (C.line conn.old) (C.line conn.new)
        (SeesFull (seated caller.new.server.now caller.new.pass)) }
{
    serve(caller, conn, pacer, draws, room)
}

// Does the same, with one clause about entries, bytes and the end, and one about pauses.
fn serve<R: Wait + Sync, C: Conn, P: Pacer>(
    caller: &mut TunnelCaller<R>,
    conn: &mut C,
    pacer: &mut P,
    draws: &mut Draws,
    room: &mut TunnelRoom,
) -> TunnelEnd
    ensures serves { ServesTunnel C.tells draws.old draws.new
        (seated caller.old.server.now caller.old.pass)
        (seated caller.new.server.now caller.new.pass)
        (C.line conn.old) (C.line conn.new) result }
    ensures pauses { PausesIdle C.tells caller.old.pass.own caller.new.pass.own
        (C.line conn.old) (C.line conn.new) (P.pauses pacer.old) (P.pauses pacer.new) result }
{
    match enter(caller, &mut room.out) {
        Entered::Lane(lane) => {
            room.parter.reset();
            let end = talk(caller, lane, conn, pacer, draws, room);
            finish(caller, lane, end, &mut room.out)
        }
        Entered::Full => TunnelEnd::Full,
        Entered::Spent => TunnelEnd::Spent,
    }
}
