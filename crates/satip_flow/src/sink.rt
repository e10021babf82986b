//! The destinations of a subscriber's packets.
ghost use Rattle.std.specs.Prelude.{◌≡◌, ◌≢◌, ◌+◌, ◌*◌, ◌≤◌, length, take, drop, MatchOption, option_map};
ghost use Rattle.std.specs.List.{concat};
ghost use Rattle.circular_buffer.specs.Buffer.{buffer};
ghost use Rattle.satip_base.specs.Output.{Wrote};
ghost use Rattle.satip_rtp.specs.Sending.{SendsAll};
ghost use Rattle.satip_flow.specs.Sinks.{feed_of, IsSink};
ghost use Rattle.satip_flow.specs.Subscription.{pulled_bytes, WrotePulled, is_full, fed, fed_datagrams, flushed_feed, flush_datagrams, holds, pulled_feed, queue_of};

use circular_buffer::HeapCircularBuffer;
use satip_base::limits::{DATAGRAM, PACKET, PULLED, PULLED_BYTES};
use satip_base::{Address, Out};
use satip_rtp::Packer;
use satip_ts::Packet;

/// A queue of up to 4096 packets.
pub(crate) type Queue = HeapCircularBuffer<Packet>;

/// Datagrams to an address, or a queue.
#[derive(Drop)]
pub(crate) enum Sink {
    Packed(Address, Packer),
    Queued(Queue),
}

/// Gives a packet to a packer or a queue. Returns `true`, and drops the packet, if the queue is
/// full.
pub(crate) fn feed(sink: &mut Sink, packet: &Packet, clock: u64, out: &mut Out) -> bool
    requires sound { IsSink sink.old }
    requires bytes { DATAGRAM ≤ out.old.datagram_spare }
    requires count { out.old.count_spare ≢ 0 }
    ensures sound { IsSink sink.new }
    ensures fed { feed_of sink.new ≡ fed packet.now (feed_of sink.old) }
    ensures sent { SendsAll out.old (fed_datagrams packet.now clock (feed_of sink.old)) out.new }
    ensures full { result ≡ is_full (feed_of sink.old) }
    ensures bytes_spare { out.old.datagram_spare ≤ out.new.datagram_spare + DATAGRAM }
    ensures count_spare { out.old.count_spare ≤ out.new.count_spare + 1 }
{
    match sink {
        Sink::Packed(to, packer) => {
            packer.push(packet, clock, *to, out);
            false
        }
        Sink::Queued(queue) => queue.try_push_back(*packet).is_err(),
    }
}

/// Sends the packets that a packer holds. Returns `false` if it holds none, or if this is a queue.
pub(crate) fn flush_sink(sink: &mut Sink, clock: u64, out: &mut Out) -> bool
    requires sound { IsSink sink.old }
    requires bytes { DATAGRAM ≤ out.old.datagram_spare }
    requires count { out.old.count_spare ≢ 0 }
    ensures sound { IsSink sink.new }
    ensures flushed { feed_of sink.new ≡ flushed_feed (feed_of sink.old) }
    ensures sent { SendsAll out.old (flush_datagrams clock (feed_of sink.old)) out.new }
    ensures held { result ≡ holds (feed_of sink.old) }
    ensures bytes_spare { out.old.datagram_spare ≤ out.new.datagram_spare + DATAGRAM }
    ensures count_spare { out.old.count_spare ≤ out.new.count_spare + 1 }
{
    match sink {
        Sink::Packed(to, packer) => packer.flush(clock, *to, out),
        Sink::Queued(_) => false,
    }
}

/// Moves the first packets of a queue, at most 64, to the reply, and returns the number of their
/// bytes. `None` if this is a packer.
pub(crate) fn pull_sink(sink: &mut Sink, out: &mut Out) -> Option<usize>
    requires sound { IsSink sink.old }
    requires room { PULLED_BYTES ≤ out.old.reply_spare }
    ensures sound { IsSink sink.new }
    ensures pulled { feed_of sink.new ≡ pulled_feed (feed_of sink.old) }
    ensures wrote { WrotePulled (queue_of (feed_of sink.old)) out.old out.new }
    ensures bytes { result ≡ pulled_bytes (queue_of (feed_of sink.old)) }
{
    match sink {
        Sink::Packed(_, _) => None,
        Sink::Queued(queue) => Some(pull_queue(queue, out)),
    }
}

// Moves the first packets, at most 64, to the reply, and returns the number of their bytes.
fn pull_queue(queue: &mut Queue, out: &mut Out) -> usize
    requires room { PULLED_BYTES ≤ out.old.reply_spare }
    ensures left { queue.new ≡ buffer (drop 64 queue.old.items) queue.old.capacity }
    ensures wrote { Wrote out.old (concat (take 64 queue.old.items)) out.new }
    ensures bytes { result ≡ PACKET * length (take PULLED queue.old.items) }
{
    let mut bytes = 0;
    for _pulled in 0..PULLED {
        bytes += pull_packet(queue, out);
    }
    bytes
}

// Moves the first packet to the reply, if there is one, and returns the number of its bytes.
fn pull_packet(queue: &mut Queue, out: &mut Out) -> usize
    requires room { PACKET ≤ out.old.reply_spare }
    ensures left { queue.new ≡ buffer (drop 1 queue.old.items) queue.old.capacity }
    ensures wrote { Wrote out.old (concat (take 1 queue.old.items)) out.new }
    ensures bytes { result ≡ PACKET * length (take 1 queue.old.items) }
    ensures spare { out.new.reply_spare + result ≡ out.old.reply_spare }
{
    match queue.pop_front() {
        Some(packet) => {
            out.write(packet.bytes());
            PACKET
        }
        None => 0,
    }
}
