//! A flow that asks each subscriber at each call: what the tests compare the flow with.

ghost use Rattle.std.specs.Prelude.{◌≢◌, ◌≤◌, vec_len};

use satip_base::limits::{DATAGRAM, EVENT_DATAGRAMS, PACKET, PULLED, QUEUED};
use satip_base::{Address, Out, Want};
use satip_flow::{Place, SenderState};
use satip_pids::PidSet;
use satip_rtp::Packer;
use satip_ts::Packet;
use std::alloc::Global;
use std::collections::VecDeque;

/// Datagrams to an address, or a queue.
#[derive(Drop)]
enum Sink {
    Packed(Address, Packer),
    Queued(VecDeque<Packet>),
}

/// A session that gets packets.
#[derive(Drop)]
struct Subscriber {
    place: Place,
    front: Option<u16>,
    pids: PidSet,
    sink: Sink,
}

impl Subscriber {
    /// Whether one of this place goes before it.
    fn is_behind(&self, place: Place) -> bool {
        place.stream < self.place.stream
            || (place.stream == self.place.stream && place.count < self.place.count)
    }

    fn change(&mut self, stream: u16, front: Option<u16>, pids: &PidSet) {
        if self.place.stream == stream {
            self.front = front;
            self.pids = pids.copy();
        }
    }

    /// Takes a packet of a front, if it is for it. True where it met a full queue.
    fn give(&mut self, front: u16, packet: &Packet, clock: u64, out: &mut Out) -> Result<bool, Want>
        requires bytes { 1328 ≤ out.old.datagram_spare }
        requires count { out.old.count_spare ≢ 0 }
    {
        if self.front != Some(front) || !self.pids.has(packet.pid()) {
            return Ok(false);
        }
        match &mut self.sink {
            Sink::Packed(to, packer) => {
                packer.push(packet, clock, *to, out);
                Ok(false)
            }
            Sink::Queued(queue) => {
                if queue.len() >= QUEUED {
                    return Ok(true);
                }
                match queue.push_back(*packet) {
                    Ok(()) => Ok(false),
                    Err(_) => Err(Want),
                }
            }
        }
    }

    fn readdress(&mut self, to: Address) -> bool {
        match &mut self.sink {
            Sink::Packed(address, _) => {
                *address = to;
                true
            }
            Sink::Queued(_) => false,
        }
    }

    fn flush(&mut self, clock: u64, out: &mut Out) -> bool
        requires bytes { 1328 ≤ out.old.datagram_spare }
        requires count { out.old.count_spare ≢ 0 }
    {
        match &mut self.sink {
            Sink::Packed(to, packer) => packer.flush(clock, *to, out),
            Sink::Queued(_) => false,
        }
    }

    fn pull(&mut self, out: &mut Out) -> Option<usize>
        requires room { 12032 ≤ out.old.reply_spare }
    {
        match &mut self.sink {
            Sink::Packed(_, _) => None,
            Sink::Queued(queue) => Some(pull_packets(queue, out)),
        }
    }

    fn state(&self) -> Option<SenderState> {
        match &self.sink {
            Sink::Packed(_, packer) => Some(SenderState {
                next: packer.next(),
                datagrams: packer.datagrams(),
                octets: packer.octets(),
            }),
            Sink::Queued(_) => None,
        }
    }
}

// Moves at most 64 packets to the reply, and answers the number of their bytes.
fn pull_packets(queue: &mut VecDeque<Packet>, out: &mut Out) -> usize
    requires room { 12032 ≤ out.old.reply_spare }
{
    let mut bytes = 0;
    for _pulled in 0..PULLED {
        let Some(packet) = queue.pop_front() else {
            return bytes;
        };
        out.write(packet.bytes());
        bytes += PACKET;
    }
    bytes
}

/// The subscribers in order of stream and then of count.
#[derive(Drop)]
pub struct Plain {
    subscribers: Vec<Subscriber>,
}

impl Plain {
    pub fn new(alloc: Global) -> Plain {
        Plain {
            subscribers: Vec::new(alloc),
        }
    }

    /// A session that gets datagrams.
    pub fn add_rtp(
        &mut self,
        place: Place,
        front: Option<u16>,
        pids: &PidSet,
        to: Address,
    ) -> Result<(), Want> {
        let sink = Sink::Packed(to, Packer::new(7, 65530));
        let pids = pids.copy();
        self.insert(Subscriber {
            place,
            front,
            pids,
            sink,
        })
    }

    /// A session that pulls.
    pub fn add_http(
        &mut self,
        alloc: Global,
        place: Place,
        front: Option<u16>,
        pids: &PidSet,
    ) -> Result<(), Want> {
        let sink = Sink::Queued(VecDeque::new(alloc));
        let pids = pids.copy();
        self.insert(Subscriber {
            place,
            front,
            pids,
            sink,
        })
    }

    fn insert(&mut self, subscriber: Subscriber) -> Result<(), Want> {
        let at = self.place_for(subscriber.place);
        match self.subscribers.insert(at, subscriber) {
            Ok(()) => Ok(()),
            Err(_) => Err(Want),
        }
    }

    pub fn change(&mut self, stream: u16, front: Option<u16>, pids: &PidSet) {
        for at in 0..self.subscribers.len() {
            if let Some(subscriber) = self.subscribers.get_mut(at) {
                subscriber.change(stream, front, pids);
            }
        }
    }

    /// Gives a packet to each in turn.
    pub fn packet(
        &mut self,
        front: u16,
        packet: &Packet,
        clock: u64,
        out: &mut Out,
    ) -> Result<u64, Want> {
        let mut overrun = 0;
        for at in 0..self.subscribers.len() {
            if out.room() < DATAGRAM {
                return Err(Want);
            }
            if out.count() >= EVENT_DATAGRAMS {
                return Err(Want);
            }
            if let Some(subscriber) = self.subscribers.get_mut(at) {
                let slot = subscriber.place.slot;
                if subscriber.give(front, packet, clock, out)? {
                    overrun |= 1 << (slot % 64);
                }
            }
        }
        Ok(overrun)
    }

    pub fn address(&mut self, slot: u16, to: Address) -> bool {
        let at = self.place_of(slot);
        match self.subscribers.get_mut(at) {
            Some(subscriber) => subscriber.readdress(to),
            None => false,
        }
    }

    pub fn flush(&mut self, slot: u16, clock: u64, out: &mut Out) -> bool {
        let at = self.place_of(slot);
        out.clear();
        match self.subscribers.get_mut(at) {
            Some(subscriber) => subscriber.flush(clock, out),
            None => false,
        }
    }

    pub fn pull(&mut self, slot: u16, out: &mut Out) -> Option<usize> {
        let at = self.place_of(slot);
        out.clear();
        match self.subscribers.get_mut(at) {
            Some(subscriber) => subscriber.pull(out),
            None => None,
        }
    }

    pub fn state(&self, slot: u16) -> Option<SenderState> {
        match self.subscribers.get(self.place_of(slot)) {
            Some(subscriber) => subscriber.state(),
            None => None,
        }
    }

    pub fn end(&mut self, slot: u16) -> bool {
        let at = self.place_of(slot);
        if at >= self.subscribers.len() {
            return false;
        }
        let _ = self.subscribers.remove(at);
        true
    }

    /// Where the subscriber of a slot stands; behind all where there is none.
    fn place_of(&self, slot: u16) -> usize {
        for (at, subscriber) in self.subscribers.iter().enumerate() {
            if subscriber.place.slot == slot {
                return at;
            }
        }
        self.subscribers.len()
    }

    /// Where a subscriber of this place goes.
    fn place_for(&self, place: Place) -> usize
        ensures within { result ≤ vec_len self.now.subscribers }
    {
        for (at, subscriber) in self.subscribers.iter().enumerate() {
            if subscriber.is_behind(place) {
                return at;
            }
        }
        self.subscribers.len()
    }
}
