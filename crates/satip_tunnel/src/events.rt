//! The events of a connection, one at a time.
ghost use Rattle.satip_tunnel.specs.Events.{MakesEvent, EntersBy, LeavesBy};
ghost use Rattle.satip_tunnel.specs.Seats.{seated};

use crate::ends::Entered;
use satip_base::{Out, Spent};
use satip_interleave::{TunnelAnswer, TunnelCaller, TunnelEvent};
use std::sync::Wait;

/// Executes one event of the tunnel.
pub(crate) fn make<R: Wait + Sync>(
    caller: &mut TunnelCaller<R>,
    event: &TunnelEvent,
    out: &mut Out,
) -> Result<TunnelAnswer, Spent>
    ensures makes { MakesEvent (seated caller.old.server.now caller.old.pass)
        (seated caller.new.server.now caller.new.pass) event.now out.new result }
{
    match caller.server.call(caller.rt, &mut caller.pass, event, out) {
        Ok(answer) => Ok(answer),
        Err(Spent) => Err(Spent),
    }
}

/// Lets the connection enter.
pub(crate) fn enter<R: Wait + Sync>(caller: &mut TunnelCaller<R>, out: &mut Out) -> Entered
    ensures enters { EntersBy (seated caller.old.server.now caller.old.pass)
        (seated caller.new.server.now caller.new.pass) result }
{
    match make(caller, &TunnelEvent::Enter, out) {
        Ok(TunnelAnswer::Lane(lane)) => Entered::Lane(lane),
        Ok(TunnelAnswer::Full) => Entered::Full,
        Ok(TunnelAnswer::Inner(_answer)) => unreachable!(),
        Ok(TunnelAnswer::Frames(_count)) => unreachable!(),
        Ok(TunnelAnswer::Empty) => unreachable!(),
        Ok(TunnelAnswer::Broken) => unreachable!(),
        Ok(TunnelAnswer::Gone) => unreachable!(),
        Ok(TunnelAnswer::Left) => unreachable!(),
        Err(Spent) => Entered::Spent,
    }
}

/// Lets the connection leave its lane.
pub(crate) fn leave<R: Wait + Sync>(
    caller: &mut TunnelCaller<R>,
    lane: u32,
    out: &mut Out,
) -> Result<(), Spent>
    ensures leaves { LeavesBy lane (seated caller.old.server.now caller.old.pass)
        (seated caller.new.server.now caller.new.pass) result }
{
    match make(caller, &TunnelEvent::Leave { lane }, out) {
        Ok(_answer) => Ok(()),
        Err(Spent) => Err(Spent),
    }
}
