//! One subscriber; in contracts it is a `Subscription`.
ghost use Rattle.std.specs.Prelude.{true, ◌≡◌, ◌≢◌, ◌+◌, ◌≤◌, [], is_some, option_map};
ghost use Rattle.circular_buffer.specs.Buffer.{buffer};
ghost use Rattle.satip_rtp.specs.Sending.{SendsAll};
ghost use Rattle.satip_flow.specs.Subscription.{sender_state, pulled_bytes, WrotePulled, subscription, ToAddress, ToQueue, selects, given, given_datagrams, overruns, flushed, flush_datagrams, holds, readdressed, pulled, changed, packing_of, queue_of};

use crate::place::{Place, SenderState};
use crate::sink::{Queue, Sink, feed, flush_sink, pull_sink};
use satip_base::limits::{DATAGRAM, PULLED_BYTES};
use satip_base::{Address, Out};
use satip_pids::PidSet;
use satip_rtp::Packer;
use satip_ts::Packet;
use std::marker::Model;

/// A session that gets packets.
#[derive(Drop)]
pub(crate) struct Subscriber {
    place: Place,
    front: Option<u16>,
    pids: PidSet,
    sink: Sink,
}

impl Model for Subscriber {
    ghost use Rattle.satip_flow.specs.Subscription.{Subscription};

    ghost Value = { Subscription };

    ghost use Rattle.satip_flow.specs.Subscription.{subscription};
    ghost use Rattle.satip_flow.specs.Sinks.{feed_of, IsSink};

    ghost view = { λ s. subscription s.place s.front s.pids (feed_of s.sink) };

    ghost invariant = { λ s. IsSink s.sink };
}

impl Subscriber {
    /// Returns a session that gets datagrams, with a new packer.
    pub(crate) fn packed(
        place: Place,
        front: Option<u16>,
        pids: &PidSet,
        to: Address,
        packer: Packer,
    ) -> Subscriber
        ensures subscription { result ≡ subscription place front pids.now (ToAddress to packer) }
    {
        Subscriber {
            place,
            front,
            pids: pids.copy(),
            sink: Sink::Packed(to, packer),
        }
    }

    /// Returns a session that pulls, with an empty queue.
    pub(crate) fn queued(
        place: Place,
        front: Option<u16>,
        pids: &PidSet,
        queue: Queue,
    ) -> Subscriber
        requires empty { queue ≡ buffer [] 4096 }
        ensures subscription { result ≡ subscription place front pids.now (ToQueue []) }
    {
        Subscriber {
            place,
            front,
            pids: pids.copy(),
            sink: Sink::Queued(queue),
        }
    }

    pub(crate) fn place(&self) -> Place
        ensures place { result ≡ self.now.place }
    {
        self.place
    }

    pub(crate) fn front(&self) -> Option<u16>
        ensures front { result ≡ self.now.front }
    {
        self.front
    }

    pub(crate) fn pids(&self) -> &PidSet
        ensures pids { result.now ≡ self.now.pids }
    {
        &self.pids
    }

    /// Gives a packet of a front end to the subscriber, which selects it. Returns `true` if the
    /// packet met a full queue.
    pub(crate) fn give(&mut self, front: u16, packet: &Packet, clock: u64, out: &mut Out) -> bool
        requires selected { selects front packet.now self.old ≡ true }
        requires bytes { DATAGRAM ≤ out.old.datagram_spare }
        requires count { out.old.count_spare ≢ 0 }
        ensures given { self.new ≡ given front packet.now self.old }
        ensures sent { SendsAll out.old (given_datagrams front packet.now clock self.old) out.new }
        ensures overrun { result ≡ overruns front packet.now self.old }
        ensures bytes_spare { out.old.datagram_spare ≤ out.new.datagram_spare + DATAGRAM }
        ensures count_spare { out.old.count_spare ≤ out.new.count_spare + 1 }
    {
        feed(&mut self.sink, packet, clock, out)
    }

    /// Sends the packets that its packer holds. Returns `false` if it holds none, or if it has a
    /// queue.
    pub(crate) fn flush(&mut self, clock: u64, out: &mut Out) -> bool
        requires bytes { DATAGRAM ≤ out.old.datagram_spare }
        requires count { out.old.count_spare ≢ 0 }
        ensures flushed { self.new ≡ flushed self.old }
        ensures sent { SendsAll out.old (flush_datagrams clock self.old.feed) out.new }
        ensures held { result ≡ holds self.old.feed }
        ensures bytes_spare { out.old.datagram_spare ≤ out.new.datagram_spare + DATAGRAM }
        ensures count_spare { out.old.count_spare ≤ out.new.count_spare + 1 }
    {
        flush_sink(&mut self.sink, clock, out)
    }

    /// Sets the front end and the PIDs, if the subscriber is of this stream.
    pub(crate) fn change(&mut self, stream: u16, front: Option<u16>, pids: &PidSet)
        ensures changed { self.new ≡ changed stream front pids.now self.old }
    {
        if self.place.stream == stream {
            self.front = front;
            self.pids.copy_from(pids);
        }
    }

    /// Sets the address of its datagrams. Returns `false` if it has a queue.
    pub(crate) fn readdress(&mut self, to: Address) -> bool
        ensures readdressed { self.new ≡ readdressed to self.old }
        ensures is_packed { result ≡ is_some (packing_of self.old.feed) }
    {
        match &mut self.sink {
            Sink::Packed(address, _) => {
                *address = to;
                true
            }
            Sink::Queued(_) => false,
        }
    }

    /// Moves at most 64 packets of its queue to the reply, and returns the number of their bytes.
    /// `None` if it has no queue.
    pub(crate) fn pull(&mut self, out: &mut Out) -> Option<usize>
        requires room { PULLED_BYTES ≤ out.old.reply_spare }
        ensures pulled { self.new ≡ pulled self.old }
        ensures wrote { WrotePulled (queue_of self.old.feed) out.old out.new }
        ensures bytes { result ≡ pulled_bytes (queue_of self.old.feed) }
    {
        pull_sink(&mut self.sink, out)
    }

    /// Returns the sender state of its packer, if it has one.
    pub(crate) fn state(&self) -> Option<SenderState>
        ensures state { result ≡ sender_state (packing_of self.now.feed) }
    {
        match &self.sink {
            Sink::Packed(_, packer) => Some(SenderState {
                next: packer.next(),
                datagrams: packer.datagrams(),
                octets: packer.octets(),
            }),
            Sink::Queued(_) => None,
        }
    }

    /// Ends the subscriber, and returns its queue, emptied, if it has one.
    pub(crate) fn into_queue(self) -> Option<Queue>
        ensures emptied { result ≡ option_map (λ packets. buffer [] 4096) (queue_of self.feed) }
    {
        let Subscriber {
            place: _,
            front: _,
            pids: _,
            sink,
        } = self;
        match sink {
            Sink::Packed(_, _) => None,
            Sink::Queued(mut queue) => {
                queue.clear();
                Some(queue)
            }
        }
    }
}
