//! Drains of a lane, and requests with the drains after them.
ghost use Rattle.std.specs.Prelude.{◌≡◌, ◌≤◌, length};
ghost use Rattle.satip_base.specs.declared.limits.TheConstants.{REPLY_BYTES as MOST};
ghost use Rattle.satip_rtsp_interleaved.specs.Turned.{turned};
ghost use Rattle.satip_world.specs.Lines.{Sends};
ghost use Rattle.satip_tunnel.specs.Walk.{Stance, MayDrain};
ghost use Rattle.satip_tunnel.specs.Exchanges.{DrainsOnce, DrainsAll, Exchanges};
ghost use Rattle.satip_tunnel.specs.Seats.{conn_at, seated};

use crate::ends::{Drained, Way};
use crate::events::make;
use satip_base::{Out, Peer, Put, Spent};
use satip_interleave::{TunnelAnswer, TunnelCaller, TunnelEvent};
use satip_plain::Event;
use satip_rtsp::Request;
use satip_rtsp_interleaved::ChannelReply;
use satip_worker::Draws;
use satip_world::Conn;
use std::sync::Wait;

// Drains the lane once, and sends the frames.
fn drain_once<R: Wait + Sync, C: Conn>(
    caller: &mut TunnelCaller<R>,
    lane: u32,
    out: &mut Out,
    conn: &mut C,
) -> Drained
    ensures drains { (stance : Stance) → MayDrain stance → DrainsOnce C.tells lane
        (conn_at (seated caller.old.server.now caller.old.pass) (C.line conn.old))
        (conn_at (seated caller.new.server.now caller.new.pass) (C.line conn.new)) stance result }
{
    match make(caller, &TunnelEvent::Drain { lane }, out) {
        Ok(TunnelAnswer::Frames(_count)) => match conn.send(out.reply()) {
            Put::Whole => Drained::More,
            Put::Failed => Drained::Lost,
        },
        Ok(TunnelAnswer::Empty) => Drained::Dry,
        Ok(TunnelAnswer::Gone) => Drained::Dry,
        Ok(TunnelAnswer::Broken) => Drained::Broken,
        Ok(TunnelAnswer::Inner(_answer)) => unreachable!(),
        Ok(TunnelAnswer::Lane(_lane)) => unreachable!(),
        Ok(TunnelAnswer::Full) => unreachable!(),
        Ok(TunnelAnswer::Left) => unreachable!(),
        Err(Spent) => Drained::Spent,
    }
}

/// Drains the lane and sends the frames, until a drain isn't answered with frames.
pub(crate) fn drain_all<R: Wait + Sync, C: Conn>(
    caller: &mut TunnelCaller<R>,
    lane: u32,
    out: &mut Out,
    conn: &mut C,
) -> Way
    ensures drains { (stance : Stance) → MayDrain stance → DrainsAll C.tells lane
        (conn_at (seated caller.old.server.now caller.old.pass) (C.line conn.old))
        (conn_at (seated caller.new.server.now caller.new.pass) (C.line conn.new)) stance result }
{
    let rt = caller.rt;
    for _ in rt.forever() {
        match drain_once(caller, lane, out, conn) {
            Drained::More => {}
            Drained::Dry => return Way::On,
            Drained::Broken => return Way::Broken,
            Drained::Lost => return Way::Lost,
            Drained::Spent => return Way::Spent,
        }
    }
    unreachable!()
}

// Returns the reply, which has at most `MOST` bytes.
fn whole_reply(out: &Out) -> &[u8]
    ensures reply { result.now ≡ out.now.reply }
    ensures whole { length out.now.reply ≤ MOST }
{
    let _datagrams = out.count();
    out.reply()
}

// Sends the reply, rewritten to channels.
fn send_reply<C: Conn>(out: &Out, reply: &mut ChannelReply, conn: &mut C) -> Put
    ensures sends { Sends C.tells (C.line conn.old) (C.line conn.new) (turned out.now.reply)
        result }
{
    reply.turn(whole_reply(out));
    conn.send(reply.bytes())
}

/// Executes a request of the lane's connection with the next draw, sends its reply, and drains the
/// lane.
pub(crate) fn exchange<R: Wait + Sync, C: Conn>(
    caller: &mut TunnelCaller<R>,
    lane: u32,
    draws: &mut Draws,
    request: Request,
    out: &mut Out,
    reply: &mut ChannelReply,
    conn: &mut C,
) -> Way
    ensures exchanges { Exchanges C.tells lane draws.old draws.new
        (conn_at (seated caller.old.server.now caller.old.pass) (C.line conn.old))
        (conn_at (seated caller.new.server.now caller.new.pass) (C.line conn.new)) request result }
{
    let draw = draws.next();
    let peer = Peer { ip: lane };
    let event = TunnelEvent::Inner(Event::Request {
        peer,
        draw,
        request,
    });
    match make(caller, &event, out) {
        Ok(_answer) => match send_reply(out, reply, conn) {
            Put::Whole => drain_all(caller, lane, out, conn),
            Put::Failed => Way::Lost,
        },
        Err(Spent) => Way::Spent,
    }
}
