//! `Flow`; in contracts it is the list of its subscribers.
ghost use Rattle.std.specs.Prelude.{◌≡◌, ◌↔◌, IsTrue, None, ◌≢◌, ℕ, ◌+◌, ◌<◌, ◌≤◌, ◌==◌, ◌&&◌, true, false, [], length, map, insert, All, vec_len, vec_capacity, is_some, IfOk, IfNone, IfSome, if◌then◌else◌};
ghost use Rattle.std.specs.List.{list_any, flat_map};
ghost use Rattle.std.specs.Int.{bit_at};
ghost use Rattle.circular_buffer.specs.Buffer.{buffer};
ghost use Rattle.satip_rtp.specs.Sending.{SendsAll};
ghost use Rattle.satip_rtp.specs.Packing.{packing};
ghost use Rattle.satip_flow.specs.Subscription.{sender_state, pulled_bytes, WrotePulled, subscription, Subscription, ToAddress, ToQueue, has_slot, takes, given, given_datagrams, flushed, flush_datagrams, holds, readdressed, pulled, changed, meets_full, packing_of, queue_of, selects};
ghost use Rattle.satip_flow.specs.Rows.{AreSlotsOf, IsAlike, IsLike, IsMarked, IsPlaced, KeepsSlots, Shows, bit};
ghost use Rattle.satip_flow.specs.Standing.{IsNowhere, StandsAt, HoldsOfAt, ChangesAt};
ghost use Rattle.satip_flow.specs.Queues.{has_queue};
ghost use Rattle.satip_flow.specs.Subscriptions.{put, comes_before, change_slot, without, feed_of_slot, packing_of_slot, queue_of_slot, holds_any, flushed_datagrams, is_overrun, IsFrontOrNone, SlotsApart};

use crate::bits::next_bit;
use crate::place::{Place, SenderState};
use crate::places::{note_places, places_of};
use crate::sink::Queue;
use crate::slot_masks::{
    are_unmarked, group_of, has_same, make_rows, remark, slots_of, with_slots,
};
use crate::subscriber::Subscriber;
use satip_base::limits::{DATAGRAM, DATAGRAMS, PULLED_BYTES, QUEUED, SESSIONS};
use satip_base::{Address, Out, Want};
use satip_pids::PidSet;
use satip_rtp::Packer;
use satip_ts::Packet;
use std::alloc::Global;
use std::marker::Model;

/// The sessions that get packets, in order of their stream's number and then of their id's count.
/// `make` allocates all its memory: for 64 subscribers, 64 queues of 4096 packets, and a word for
/// each front end and PID, which marks the slots of the subscribers that select it.
#[derive(Drop)]
pub struct Flow {
    subscribers: Vec<Subscriber>,
    spare_queues: Vec<Queue>,
    rows: Vec<u64>,
    // Of these slots, those of one stream have the same front end and PIDs.
    alike: u64,
    places: [u8; SESSIONS],
}

impl Model for Flow {
    ghost use Rattle.std.specs.Prelude.{List};
    ghost use Rattle.satip_flow.specs.Subscription.{Subscription};

    ghost Value = { List Subscription };

    ghost use Rattle.satip_flow.specs.Rooms.{IsSound};

    ghost view = { λ f. f.subscribers.items };

    ghost invariant = { IsSound };
}

impl Flow {
    /// Allocates all memory; `Want` is out of memory. There are no subscribers.
    pub fn make(alloc: Global) -> Result<Flow, Want>
        ensures ok { IfOk result (λ flow. flow ≡ []) }
    {
        let (Ok(subscribers), Ok(spare_queues), Ok(rows)) = (
            Vec::with_capacity(alloc, SESSIONS),
            make_queues(alloc),
            make_rows(alloc),
        ) else {
            return Err(Want);
        };
        Ok(Flow {
            subscribers,
            spare_queues,
            rows,
            alike: 0,
            places: [0; SESSIONS],
        })
    }

    /// Adds a playing session, with a new packer.
    pub fn add_rtp(
        &mut self,
        place: Place,
        front: Option<u16>,
        pids: &PidSet,
        to: Address,
        ssrc: u32,
        first: u16,
    )
        requires slot { place.slot < 64 }
        requires free { list_any (has_slot place.slot) self.old ≡ false }
        requires front { IsFrontOrNone front }
        ensures added { self.new
            ≡ put (subscription place front pids.now (ToAddress to (packing ssrc first))) self.old }
    {
        let is_alike = is_like(&self.subscribers, self.alike, place.stream, front, pids);
        let subscriber = Subscriber::packed(place, front, pids, to, Packer::new(ssrc, first));
        insert_ordered(&mut self.subscribers, subscriber);
        let own = slot_bit(place.slot, true);
        remark(&mut self.rows, own, None, pids, front, pids);
        self.alike = with_slots(self.alike, own, is_alike);
        note_places(&mut self.places, &self.subscribers);
    }

    /// Adds a session over HTTP, with an empty queue.
    pub fn add_http(&mut self, place: Place, front: Option<u16>, pids: &PidSet)
        requires slot { place.slot < 64 }
        requires free { list_any (has_slot place.slot) self.old ≡ false }
        requires front { IsFrontOrNone front }
        ensures added { self.new ≡ put (subscription place front pids.now (ToQueue [])) self.old }
    {
        let is_alike = is_like(&self.subscribers, self.alike, place.stream, front, pids);
        let queue = self.spare_queues.pop().unwrap();
        insert_ordered(
            &mut self.subscribers,
            Subscriber::queued(place, front, pids, queue),
        );
        let own = slot_bit(place.slot, true);
        remark(&mut self.rows, own, None, pids, front, pids);
        self.alike = with_slots(self.alike, own, is_alike);
        note_places(&mut self.places, &self.subscribers);
    }

    /// Sets the front end and the PIDs of each subscriber of this stream. Held and queued packets
    /// stay.
    pub fn change(&mut self, stream: u16, front: Option<u16>, pids: &PidSet)
        requires front { IsFrontOrNone front }
        ensures changed { self.new ≡ map (changed stream front pids.now) self.old }
    {
        self.alike |= remark_all(
            &mut self.rows,
            &self.subscribers,
            self.alike,
            stream,
            front,
            pids,
        );
        change_all(&mut self.subscribers, stream, front, pids);
    }

    /// Sets the address of the datagrams of the slot's subscriber. Returns `false` if the slot has
    /// no subscriber that gets datagrams.
    pub fn address(&mut self, slot: u16, to: Address) -> bool
        ensures found { result ≡ is_some (packing_of_slot slot self.old) }
        ensures readdressed { self.new ≡ change_slot slot (readdressed to) self.old }
    {
        let Some(at) = place_of(&self.subscribers, &self.places, slot) else {
            return false;
        };
        readdress_at(&mut self.subscribers, at, to)
    }

    /// Gives a packet of a front end to each of its subscribers that selects the packet. Bit k of
    /// the result is set exactly if the packet met the full queue of the subscriber in slot k.
    pub fn packet(&mut self, front: u16, packet: &Packet, clock: u64, out: &mut Out) -> u64
        requires bytes { DATAGRAMS ≤ out.old.datagram_spare }
        requires count { 64 ≤ out.old.count_spare }
        ensures given { self.new ≡ map (given front packet.now) self.old }
        ensures sent { SendsAll out.old
            (flat_map (given_datagrams front packet.now clock) self.old) out.new }
        ensures overrun { (slot : ℕ)
            → bit_at result slot ≡ (if is_overrun front packet.now self.old slot then 1 else 0) }
        ensures bytes_spare { out.old.datagram_spare ≤ out.new.datagram_spare + DATAGRAMS }
        ensures count_spare { out.old.count_spare ≤ out.new.count_spare + 64 }
    {
        let slots = slots_of(&self.rows, front, packet.pid());
        let places = places_of(slots, &self.places);
        give_all(&mut self.subscribers, places, front, packet, clock, out)
    }

    /// Sends the packets that the packer of the slot's subscriber holds. Returns `false` if there
    /// are none, or if the slot has no subscriber that gets datagrams.
    pub fn flush(&mut self, slot: u16, clock: u64, out: &mut Out) -> bool
        requires bytes { DATAGRAM ≤ out.old.datagram_spare }
        requires count { out.old.count_spare ≢ 0 }
        ensures held { result ≡ holds_any (feed_of_slot slot self.old) }
        ensures flushed { self.new ≡ change_slot slot flushed self.old }
        ensures sent { SendsAll out.old
            (flushed_datagrams clock (feed_of_slot slot self.old)) out.new }
        ensures bytes_spare { out.old.datagram_spare ≤ out.new.datagram_spare + DATAGRAM }
        ensures count_spare { out.old.count_spare ≤ out.new.count_spare + 1 }
    {
        let Some(at) = place_of(&self.subscribers, &self.places, slot) else {
            return false;
        };
        flush_at(&mut self.subscribers, at, clock, out)
    }

    /// Moves the first packets of the slot's queue, at most 64, to the reply, and returns the
    /// number of their bytes. `None` if the slot has no subscriber with a queue.
    pub fn pull(&mut self, slot: u16, out: &mut Out) -> Option<usize>
        requires room { PULLED_BYTES ≤ out.old.reply_spare }
        ensures bytes { result ≡ pulled_bytes (queue_of_slot slot self.old) }
        ensures pulled { self.new ≡ change_slot slot pulled self.old }
        ensures wrote { WrotePulled (queue_of_slot slot self.old) out.old out.new }
    {
        let Some(at) = place_of(&self.subscribers, &self.places, slot) else {
            return None;
        };
        pull_at(&mut self.subscribers, at, out)
    }

    /// Returns the sender state of the slot's subscriber. `None` if the slot has no subscriber that
    /// gets datagrams.
    pub fn state(&self, slot: u16) -> Option<SenderState>
        ensures state { result ≡ sender_state (packing_of_slot slot self.now) }
    {
        let Some(at) = place_of(&self.subscribers, &self.places, slot) else {
            return None;
        };
        self.subscribers[at].state()
    }

    /// Removes the slot's subscriber and the packets that it held or queued. Returns `false` if the
    /// slot has none.
    pub fn end(&mut self, slot: u16) -> bool
        ensures found { result ≡ list_any (has_slot slot) self.old }
        ensures gone { self.new ≡ without slot self.old }
    {
        let Some(at) = place_of(&self.subscribers, &self.places, slot) else {
            return false;
        };
        unmark(&mut self.rows, slot_bit(slot, true), &self.subscribers[at]);
        give_back(&mut self.spare_queues, self.subscribers.remove(at));
        note_places(&mut self.places, &self.subscribers);
        true
    }

    /// Returns whether no slot is marked for any front end and PID: no subscriber selects any
    /// packet.
    pub fn is_unmarked(&self) -> bool
        ensures unselected { IsTrue result ↔ ((front pid : ℕ) → pid < 8192
            → list_any (takes front pid) self.now ≡ false) }
    {
        are_unmarked(&self.rows)
    }
}

// Returns empty queues, one for each of the 64 possible subscribers.
fn make_queues(alloc: Global) -> Result<Vec<Queue>, Want>
    ensures queues { IfOk result (λ queues. All (λ queue. queue ≡ buffer [] 4096) queues.items) }
    ensures count { IfOk result (λ queues. vec_len queues ≡ 64) }
    ensures room { IfOk result (λ queues. 64 ≤ vec_capacity queues) }
{
    let Ok(mut queues) = Vec::with_capacity(alloc, SESSIONS) else {
        return Err(Want);
    };
    for _made in 0..SESSIONS {
        let Ok(queue) = Queue::with_capacity(alloc, QUEUED) else {
            return Err(Want);
        };
        queues.push_reserved(queue);
    }
    Ok(queues)
}

// Inserts a subscriber in order, within the memory that the list has.
fn insert_ordered(subscribers: &mut Vec<Subscriber>, subscriber: Subscriber)
    requires slot { subscriber.place.slot < 64 }
    requires free { list_any (has_slot subscriber.place.slot) subscribers.old.items ≡ false }
    requires apart { SlotsApart subscribers.old.items }
    requires room { 64 ≤ vec_capacity subscribers.old }
    ensures added { subscribers.new.items ≡ put subscriber subscribers.old.items }
    ensures capacity { vec_capacity subscribers.old ≤ vec_capacity subscribers.new }
{
    let at = place_for(subscribers, subscriber.place());
    subscribers.insert(at, subscriber).unwrap();
}

/// Returns the place at which a subscriber with this place in the order is inserted.
pub(crate) fn place_for(subscribers: &[Subscriber], place: Place) -> usize
    ensures within { result ≤ length subscribers.now }
    ensures ordered { (s : Subscription) → s.place ≡ place
        → put s subscribers.now ≡ insert subscribers.now result s }
{
    for (at, subscriber) in subscribers.iter().enumerate() {
        if comes_before(place, subscriber.place()) {
            return at;
        }
    }
    subscribers.len()
}

// Returns whether a is before b: subscribers are ordered by their stream's number, those of one
// stream by count.
fn comes_before(a: Place, b: Place) -> bool
    ensures before { result ≡ comes_before a b }
{
    a.stream < b.stream || (a.stream == b.stream && a.count < b.count)
}

// Returns the place of the subscriber of a slot in the list.
fn place_of(subscribers: &[Subscriber], places: &[u8], slot: u16) -> Option<usize>
    requires apart { SlotsApart subscribers.now }
    requires count { length places.now ≡ 64 }
    requires placed { IsPlaced places.now subscribers.now }
    ensures none { IfNone result (IsNowhere slot subscribers.now) }
    ensures found { IfSome result (StandsAt slot subscribers.now) }
{
    if slot as usize >= SESSIONS {
        return None;
    }
    let at = places[slot as usize] as usize;
    if at >= subscribers.len() {
        return None;
    }
    if subscribers[at].place().slot != slot {
        return None;
    }
    Some(at)
}

// Returns whether this front end and these PIDs are those of the stream's subscribers that are
// known to be alike.
fn is_like(
    subscribers: &[Subscriber],
    alike: u64,
    stream: u16,
    front: Option<u16>,
    pids: &PidSet,
) -> bool
    requires apart { SlotsApart subscribers.now }
    requires alike { IsAlike alike subscribers.now }
    ensures like { result ≡ true → IsLike alike subscribers.now stream front pids.now }
{
    for subscriber in subscribers {
        let place = subscriber.place();
        if place.stream == stream && (alike >> place.slot) % 2 == 1 {
            return subscriber.front() == front && has_same(subscriber.pids(), pids);
        }
    }
    true
}

// Clears the marks of a subscriber's slot.
fn unmark(rows: &mut [u64], slots: u64, subscriber: &Subscriber)
    requires count { length rows.old ≡ 131072 }
    requires front { IsFrontOrNone subscriber.now.front }
    requires shown { Shows rows.old slots subscriber.now.front subscriber.now.pids }
    ensures shown { Shows rows.new slots None subscriber.now.pids }
    ensures others { KeepsSlots slots rows.old rows.new }
    ensures count { length rows.new ≡ 131072 }
{
    let pids = subscriber.pids();
    remark(rows, slots, subscriber.front(), pids, None, pids);
}

// Marks the slots of a stream's subscribers for another front end and other PIDs, and returns
// them. Those that are known to be alike are written together.
fn remark_all(
    rows: &mut [u64],
    subscribers: &[Subscriber],
    alike: u64,
    stream: u16,
    front: Option<u16>,
    pids: &PidSet,
) -> u64
    requires count { length rows.old ≡ 131072 }
    requires apart { SlotsApart subscribers.now }
    requires marked { IsMarked rows.old alike subscribers.now }
    requires front { IsFrontOrNone front }
    ensures slots { AreSlotsOf result stream subscribers.now }
    ensures shown { Shows rows.new result front pids.now }
    ensures others { KeepsSlots result rows.old rows.new }
    ensures count { length rows.new ≡ 131072 }
{
    let slots = slots_of_stream(subscribers, stream);
    let mut left = slots;
    for subscriber in subscribers {
        let slot = subscriber.place().slot;
        if (left >> slot) % 2 == 1 {
            let same = group_of(left, alike, slot);
            remark(
                rows,
                same,
                subscriber.front(),
                subscriber.pids(),
                front,
                pids,
            );
            left &= !same;
        }
    }
    slots
}

// Returns the slots of a stream's subscribers.
fn slots_of_stream(subscribers: &[Subscriber], stream: u16) -> u64
    requires apart { SlotsApart subscribers.now }
    ensures slots { AreSlotsOf result stream subscribers.now }
{
    let mut slots = 0;
    for subscriber in subscribers {
        let place = subscriber.place();
        slots |= slot_bit(place.slot, place.stream == stream);
    }
    slots
}

fn change_all(subscribers: &mut Vec<Subscriber>, stream: u16, front: Option<u16>, pids: &PidSet)
    ensures changed { subscribers.new.items
        ≡ map (changed stream front pids.now) subscribers.old.items }
    ensures capacity { vec_capacity subscribers.new ≡ vec_capacity subscribers.old }
{
    for at in 0..subscribers.len() {
        change_at(subscribers, at, stream, front, pids);
    }
}

fn change_at(
    subscribers: &mut Vec<Subscriber>,
    at: usize,
    stream: u16,
    front: Option<u16>,
    pids: &PidSet,
)
    requires within { at < vec_len subscribers.old }
    ensures changed { ChangesAt subscribers.old.items at
        (changed stream front pids.now) subscribers.new.items }
    ensures capacity { vec_capacity subscribers.new ≡ vec_capacity subscribers.old }
{
    subscribers[at].change(stream, front, pids);
}

fn readdress_at(subscribers: &mut Vec<Subscriber>, at: usize, to: Address) -> bool
    requires within { at < vec_len subscribers.old }
    ensures changed { ChangesAt subscribers.old.items at (readdressed to) subscribers.new.items }
    ensures found { HoldsOfAt subscribers.old.items at (λ s. result ≡ is_some (packing_of s.feed)) }
    ensures capacity { vec_capacity subscribers.new ≡ vec_capacity subscribers.old }
{
    subscribers[at].readdress(to)
}

fn flush_at(subscribers: &mut Vec<Subscriber>, at: usize, clock: u64, out: &mut Out) -> bool
    requires within { at < vec_len subscribers.old }
    requires bytes { DATAGRAM ≤ out.old.datagram_spare }
    requires count { out.old.count_spare ≢ 0 }
    ensures changed { ChangesAt subscribers.old.items at flushed subscribers.new.items }
    ensures sent { HoldsOfAt subscribers.old.items at
        (λ s. SendsAll out.old (flush_datagrams clock s.feed) out.new) }
    ensures held { HoldsOfAt subscribers.old.items at (λ s. result ≡ holds s.feed) }
    ensures bytes_spare { out.old.datagram_spare ≤ out.new.datagram_spare + DATAGRAM }
    ensures count_spare { out.old.count_spare ≤ out.new.count_spare + 1 }
    ensures capacity { vec_capacity subscribers.new ≡ vec_capacity subscribers.old }
{
    subscribers[at].flush(clock, out)
}

fn pull_at(subscribers: &mut Vec<Subscriber>, at: usize, out: &mut Out) -> Option<usize>
    requires within { at < vec_len subscribers.old }
    requires room { PULLED_BYTES ≤ out.old.reply_spare }
    ensures changed { ChangesAt subscribers.old.items at pulled subscribers.new.items }
    ensures wrote { HoldsOfAt subscribers.old.items at
        (λ s. WrotePulled (queue_of s.feed) out.old out.new) }
    ensures bytes { HoldsOfAt subscribers.old.items at
        (λ s. result ≡ pulled_bytes (queue_of s.feed)) }
    ensures capacity { vec_capacity subscribers.new ≡ vec_capacity subscribers.old }
{
    subscribers[at].pull(out)
}

// Gives a packet to each subscriber that selects it; these are at `places`. Returns a bit for each
// slot whose full queue the packet met.
fn give_all(
    subscribers: &mut Vec<Subscriber>,
    places: u64,
    front: u16,
    packet: &Packet,
    clock: u64,
    out: &mut Out,
) -> u64
    requires apart { SlotsApart subscribers.old.items }
    requires selected { (at : ℕ) → at < length subscribers.old.items
        → HoldsOfAt subscribers.old.items at
        (λ s. bit_at places at ≡ bit (selects front packet.now s)) }
    requires bytes { DATAGRAMS ≤ out.old.datagram_spare }
    requires count { 64 ≤ out.old.count_spare }
    ensures given { subscribers.new.items ≡ map (given front packet.now) subscribers.old.items }
    ensures sent { SendsAll out.old
        (flat_map (given_datagrams front packet.now clock) subscribers.old.items) out.new }
    ensures overrun { (slot : ℕ)
        → bit_at result slot
        ≡ (if is_overrun front packet.now subscribers.old.items slot then 1 else 0) }
    ensures capacity { vec_capacity subscribers.new ≡ vec_capacity subscribers.old }
    ensures bytes_spare { out.old.datagram_spare ≤ out.new.datagram_spare + DATAGRAMS }
    ensures count_spare { out.old.count_spare ≤ out.new.count_spare + 64 }
{
    let mut overrun = 0;
    let mut at = next_bit(places, 0);
    while at < subscribers.len() {
        overrun |= give_at(subscribers, at, front, packet, clock, out);
        at = next_bit(places, at + 1);
    }
    overrun
}

// Gives a packet to one subscriber, which selects it. Returns the bit of its slot if the packet met its full queue.
fn give_at(
    subscribers: &mut Vec<Subscriber>,
    at: usize,
    front: u16,
    packet: &Packet,
    clock: u64,
    out: &mut Out,
) -> u64
    requires within { at < vec_len subscribers.old }
    requires slot { HoldsOfAt subscribers.old.items at (λ s. s.place.slot < 64) }
    requires selected { HoldsOfAt subscribers.old.items at
        (λ s. selects front packet.now s ≡ true) }
    requires bytes { DATAGRAM ≤ out.old.datagram_spare }
    requires count { out.old.count_spare ≢ 0 }
    ensures changed { ChangesAt subscribers.old.items at
        (given front packet.now) subscribers.new.items }
    ensures sent { HoldsOfAt subscribers.old.items at
        (λ s. SendsAll out.old (given_datagrams front packet.now clock s) out.new) }
    ensures overrun { HoldsOfAt subscribers.old.items at (λ s. (slot : ℕ)
        → bit_at result slot ≡ (if meets_full front packet.now slot s then 1 else 0)) }
    ensures capacity { vec_capacity subscribers.new ≡ vec_capacity subscribers.old }
    ensures bytes_spare { out.old.datagram_spare ≤ out.new.datagram_spare + DATAGRAM }
    ensures count_spare { out.old.count_spare ≤ out.new.count_spare + 1 }
{
    let slot = subscribers[at].place().slot;
    let is_overrun = subscribers[at].give(front, packet, clock, out);
    slot_bit(slot, is_overrun)
}

// Returns the bit of a slot if `is_set`, else 0.
fn slot_bit(slot: u16, is_set: bool) -> u64
    requires slot { slot < 64 }
    ensures bits { (other : ℕ) → bit_at result other ≡ (if is_set && slot == other then 1 else 0) }
{
    if is_set { 1 << slot } else { 0 }
}

// Takes back the queue of a removed subscriber, if it has one.
fn give_back(spare_queues: &mut Vec<Queue>, subscriber: Subscriber)
    requires room { has_queue subscriber ≡ true
        → vec_len spare_queues.old < vec_capacity spare_queues.old }
    requires queues { All (λ queue. queue ≡ buffer [] 4096) spare_queues.old.items }
    ensures queues { All (λ queue. queue ≡ buffer [] 4096) spare_queues.new.items }
    ensures count { vec_len spare_queues.new
        ≡ vec_len spare_queues.old + (if has_queue subscriber then 1 else 0) }
    ensures capacity { vec_capacity spare_queues.new ≡ vec_capacity spare_queues.old }
{
    if let Some(queue) = subscriber.into_queue() {
        spare_queues.push_reserved(queue);
    }
}
