//! The server and its lanes.

ghost use Rattle.std.specs.Prelude.{◌≡◌, ◌≤◌, [], ℕ, List, length, IfOk};
ghost use Rattle.std.specs.List.{concat};
ghost use Rattle.satip_fronts.specs.FrontEnds.{IsNumbered};
ghost use Rattle.satip_interleave.specs.Lanes.{drain_answer, drained, entered, entered_number, is_held, lane_of, left, no_lanes, taken_frames};
ghost use Rattle.satip_interleave.specs.Tunnels.{put_all, moved_by, lane_told, drain_told, left_told};
ghost use Rattle.satip_interleave.specs.Answers.{IsAnswered, Writes};
ghost use Rattle.satip_interleave.specs.Standing.{InnerDone, Stands, MatchInner};

use crate::events::{TunnelAnswer, TunnelEvent};
use crate::lane::Drained;
use crate::lanes::Lanes;
use crate::sending::bring_all;
use satip_base::{Out, Want};
use satip_core::Server;
use satip_plain::{Answer, Event, known_event};
use satip_tune::Config;
use std::alloc::Global;
use std::marker::Model;

/// A server and the lanes of its connections. A contract sees both; each event is a step of the
/// server or of the lanes.
#[derive(Drop)]
pub struct Tunnel {
    server: Server,
    lanes: Lanes,
}

impl Model for Tunnel {
    ghost use Rattle.satip_interleave.specs.Held.{Held};

    ghost Value = { Held };

    ghost view = { λ t. record { server = t.server; lanes = t.lanes } };
}

impl Tunnel {
    /// Creates the server before its first event, with its clock at `start` in milliseconds of Unix
    /// time, and no lane held. Takes all memory, 64 queues of 524288 bytes included. Returns `Want`
    /// if it was refused.
    pub fn make(alloc: Global, config: Config, start: u64) -> Result<Tunnel, Want>
        requires few { length config.fronts ≤ 16 }
        requires numbered { IsNumbered 1 config.fronts }
        requires received { length config.muxes ≤ 256 }
        ensures setting { IfOk result (λ tunnel. tunnel.server.setting
            ≡ record { config = config; start = start }) }
        ensures none { IfOk result (λ tunnel. tunnel.lanes ≡ no_lanes) }
        ensures history { IfOk result (λ tunnel. Stands tunnel []) }
    {
        let lanes = Lanes::make(alloc)?;
        let server = Server::make(alloc, config, start)?;
        Ok(Tunnel { server, lanes })
    }

    /// Executes an event of the server. Clears `out` first; `out` then has the reply and the
    /// datagrams. Then appends each datagram to the lane that its host names, as a frame of channel
    /// port - 1. Only held lanes and ports from 1 to 256 take one. A frame that doesn't fit breaks
    /// its lane and nothing else.
    pub fn inner(&mut self, event: &Event, out: &mut Out) -> Answer
        ensures done { InnerDone self.old.server event.now result out.new self.new.server }
        ensures lanes { self.new.lanes ≡ put_all out.new.datagrams self.old.lanes }
    {
        known_event(event);
        let answer = self.server.event(event, out);
        bring_all(out, &mut self.lanes);
        answer
    }

    /// Gives an entering connection a lane, and clears `out`. Returns its number: the next, counted
    /// from 1. Returns `None` exactly if 64 lanes are held or 16777215 numbers were given; then
    /// nothing changes.
    pub fn enter(&mut self, out: &mut Out) -> Option<u32>
        ensures number { result ≡ entered_number self.old.lanes }
        ensures lanes { self.new.lanes ≡ entered self.old.lanes }
        ensures server { self.new.server ≡ self.old.server }
        ensures writes { Writes [] out.new }
    {
        out.clear();
        self.lanes.enter()
    }

    /// Clears `out`, and moves the first whole frames of a lane to the reply, as many as fit in
    /// 65536 bytes. Returns `Gone` exactly if the lane isn't held. If no frame waits, returns
    /// `Broken` exactly if one didn't fit.
    pub fn drain(&mut self, lane: u32, out: &mut Out) -> Drained
        ensures answer { result ≡ drain_answer (lane_of lane self.old.lanes.held) }
        ensures lanes { self.new.lanes ≡ drained lane self.old.lanes }
        ensures server { self.new.server ≡ self.old.server }
        ensures writes { Writes (concat (taken_frames (lane_of lane self.old.lanes.held)))
            out.new }
    {
        out.clear();
        self.lanes.drain(lane, out)
    }

    /// Gives a lane up, with the frames that wait, and clears `out`. Returns false exactly if it
    /// isn't held.
    pub fn leave(&mut self, lane: u32, out: &mut Out) -> bool
        ensures held { result ≡ is_held lane self.old.lanes }
        ensures lanes { self.new.lanes ≡ left lane self.old.lanes }
        ensures server { self.new.server ≡ self.old.server }
        ensures writes { Writes [] out.new }
    {
        out.clear();
        self.lanes.leave(lane)
    }

    /// Executes any event, by its kind. Returns `Inner` exactly for an event of the server. Returns
    /// `Lane` or `Full` for a connection that enters, `Left` or `Gone` for one that leaves, and
    /// `Frames`, `Empty`, `Broken` or `Gone` for a drain.
    pub fn event(&mut self, event: &TunnelEvent, out: &mut Out) -> TunnelAnswer
        ensures answered { IsAnswered self.old.lanes event.now result out.new }
        ensures lanes { self.new.lanes ≡ moved_by event.now out.new.datagrams self.old.lanes }
        ensures server { MatchInner self.old.server event.now result out.new self.new.server }
    {
        match event {
            TunnelEvent::Inner(event) => TunnelAnswer::Inner(self.inner(event, out)),
            TunnelEvent::Enter => told_lane(self.enter(out)),
            TunnelEvent::Drain { lane } => told_drain(self.drain(*lane, out)),
            TunnelEvent::Leave { lane } => told_left(self.leave(*lane, out)),
        }
    }
}

fn told_lane(number: Option<u32>) -> TunnelAnswer
    ensures told { result ≡ lane_told number }
{
    match number {
        None => TunnelAnswer::Full,
        Some(number) => TunnelAnswer::Lane(number),
    }
}

fn told_drain(drained: Drained) -> TunnelAnswer
    ensures told { result ≡ drain_told drained }
{
    match drained {
        Drained::Frames(count) => TunnelAnswer::Frames(count),
        Drained::Empty => TunnelAnswer::Empty,
        Drained::Broken => TunnelAnswer::Broken,
        Drained::Gone => TunnelAnswer::Gone,
    }
}

fn told_left(held: bool) -> TunnelAnswer
    ensures told { result ≡ left_told held }
{
    if held {
        TunnelAnswer::Left
    } else {
        TunnelAnswer::Gone
    }
}
