//! The type `Lanes`. A clause sees the count of numbers given and the held lanes.

ghost use Rattle.std.specs.Prelude.{◌≡◌, ℕ, ◌+◌, ◌<◌, ◌≤◌, [], All, vec_len, vec_capacity, IfOk, IfNone, IfSome};
ghost use Rattle.std.specs.List.{concat};
ghost use Rattle.satip_base.specs.Output.{Wrote};
ghost use Rattle.satip_interleave.specs.Frames.{first_frames};
ghost use Rattle.satip_interleave.specs.Lanes.{no_lanes, entered_number, entered, put_in, put_to, lane_of, lane_answer, taken_frames, drain_answer, drained_lane, drained, is_held, left};
ghost use Rattle.satip_interleave.specs.LaneStanding.{IsNowhere, StandsAt, HoldsOfAt, ChangesAt};

use crate::lane::{Drained, Lane};
use crate::queue::Queue;
use satip_base::{Address, Out, Want};
use std::alloc::Global;
use std::marker::Model;

const LANES: usize = 64;

const NUMBERS: u32 = 16777215;

/// The lanes of a tunnel: for each connection that entered, the interleaved frames (RFC 2326,
/// 10.12) that wait for it. `make` takes all memory: 64 queues of 524288 bytes.
#[derive(Drop)]
pub struct Lanes {
    given: u32,
    held: Vec<Lane>,
    spare: Vec<Queue>,
}

impl Model for Lanes {
    ghost use Rattle.satip_interleave.specs.Lanes.{PlainLanes};

    ghost Value = { PlainLanes };

    ghost use Rattle.satip_interleave.specs.Rooms.{IsSound};

    ghost view = { λ l. record { given = l.given; held = l.held.items } };

    ghost invariant = { IsSound };
}

impl Lanes {
    /// Takes all memory. No number is given, and no lane is held.
    pub fn make(alloc: Global) -> Result<Lanes, Want>
        ensures none { IfOk result (λ lanes. lanes ≡ no_lanes) }
    {
        let (Ok(held), Ok(spare)) = (Vec::with_capacity(alloc, LANES), make_queues(alloc)) else {
            return Err(Want);
        };
        Ok(Lanes {
            given: 0,
            held,
            spare,
        })
    }

    /// Gives an entering connection a lane. Returns its number: the next, counted from 1. Returns
    /// `None` exactly if 64 lanes are held or 16777215 numbers were given; then nothing changes.
    pub fn enter(&mut self) -> Option<u32>
        ensures number { result ≡ entered_number self.old }
        ensures entered { self.new ≡ entered self.old }
    {
        if self.held.len() >= LANES || self.given >= NUMBERS {
            return None;
        }
        let queue = self.spare.pop().unwrap();
        self.given += 1;
        self.held.push_reserved(Lane::new(self.given, queue));
        Some(self.given)
    }

    /// Appends a datagram to a lane as a frame of channel port - 1. The host of the address is the
    /// number of a held lane, and the port is from 1 to 256; any other datagram is dropped. A frame
    /// that doesn't fit breaks the lane, which takes no further frame.
    pub fn put(&mut self, to: Address, datagram: &[u8])
        ensures put { self.new ≡ put_to to datagram.now self.old }
    {
        let Some(at) = place_of(&self.held, to.ip) else {
            return;
        };
        put_at(&mut self.held, at, to.port, datagram);
    }

    /// Moves the first frames of a lane to the reply, as many as fit in 65536 bytes. Returns `Gone`
    /// exactly if the lane isn't held. If no frame waits, returns `Broken` exactly if one didn't
    /// fit.
    pub fn drain(&mut self, lane: u32, out: &mut Out) -> Drained
        requires room { 65536 ≤ out.old.reply_spare }
        ensures answer { result ≡ drain_answer (lane_of lane self.old.held) }
        ensures drained { self.new ≡ drained lane self.old }
        ensures wrote { Wrote out.old
            (concat (taken_frames (lane_of lane self.old.held))) out.new }
    {
        let Some(at) = place_of(&self.held, lane) else {
            return Drained::Gone;
        };
        drain_at(&mut self.held, at, out)
    }

    /// Gives a lane up, with the frames that wait. Returns false exactly if it isn't held.
    pub fn leave(&mut self, lane: u32) -> bool
        ensures held { result ≡ is_held lane self.old }
        ensures left { self.new ≡ left lane self.old }
    {
        let Some(at) = place_of(&self.held, lane) else {
            return false;
        };
        self.spare.push_reserved(self.held.remove(at).into_queue());
        true
    }
}

// Creates one empty queue for each possible lane.
fn make_queues(alloc: Global) -> Result<Vec<Queue>, Want>
    ensures queues { IfOk result (λ queues. All (λ queue. queue ≡ []) queues.items) }
    ensures count { IfOk result (λ queues. vec_len queues ≡ 64) }
    ensures room { IfOk result (λ queues. 64 ≤ vec_capacity queues) }
{
    let Ok(mut queues) = Vec::with_capacity(alloc, LANES) else {
        return Err(Want);
    };
    for _made in 0..LANES {
        let Ok(queue) = Queue::make(alloc) else {
            return Err(Want);
        };
        queues.push_reserved(queue);
    }
    Ok(queues)
}

// Returns the place of the lane with a number.
fn place_of(lanes: &[Lane], number: u32) -> Option<usize>
    ensures none { IfNone result (IsNowhere number lanes.now) }
    ensures found { IfSome result (StandsAt number lanes.now) }
{
    for (at, lane) in lanes.iter().enumerate() {
        if lane.number() == number {
            return Some(at);
        }
    }
    None
}

fn put_at(lanes: &mut Vec<Lane>, at: usize, port: u16, datagram: &[u8])
    requires within { at < vec_len lanes.old }
    ensures changed { ChangesAt lanes.old.items at (put_in port datagram.now) lanes.new.items }
    ensures capacity { vec_capacity lanes.new ≡ vec_capacity lanes.old }
{
    lanes[at].put(port, datagram);
}

fn drain_at(lanes: &mut Vec<Lane>, at: usize, out: &mut Out) -> Drained
    requires within { at < vec_len lanes.old }
    requires room { 65536 ≤ out.old.reply_spare }
    ensures answer { HoldsOfAt lanes.old.items at
        (λ lane. result ≡ lane_answer lane.frames lane.broken) }
    ensures changed { ChangesAt lanes.old.items at drained_lane lanes.new.items }
    ensures wrote { HoldsOfAt lanes.old.items at
        (λ lane. Wrote out.old (concat (first_frames 65536 lane.frames)) out.new) }
    ensures capacity { vec_capacity lanes.new ≡ vec_capacity lanes.old }
{
    lanes[at].drain(out)
}
