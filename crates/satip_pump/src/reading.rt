//! The recording that a pump reads.
ghost use Rattle.std.specs.Prelude.{◌≡◌, ◌+◌, ◌-◌, ◌<◌, ◌≤◌, ◌↔◌, max, true, false, [], length, Some, None, IsTrue};
ghost use Rattle.satip_ts.specs.Recording.{cut_packets};
ghost use Rattle.satip_world.specs.Counts.{Rises};
ghost use Rattle.satip_pump.specs.Readings.{GoesTo, ReadsOn, HasFailed, Begins, begun, held, read_state};

use crate::buffer::Buffer;
use satip_base::Taken;
use satip_world::MuxStore;
use std::sync::Wait;

/// A pump's reading: the tune number, the source, and the packets and bytes not yet given. The
/// source is `None` after it came to its end or failed.
#[derive(Drop)]
pub(crate) struct Reading<F> {
    pub tune: Option<u64>,
    pub source: Option<F>,
    pub buffer: Buffer,
}

impl<F> Reading<F> {
    /// Creates a reading of nothing.
    pub(crate) fn new() -> Reading<F>
        ensures begun { result ≡ begun }
    {
        Reading {
            tune: None,
            source: None,
            buffer: Buffer::new(),
        }
    }
}

/// Hands the source back to the store, if there is one.
pub(crate) fn hand_back<M: MuxStore>(reading: &mut Reading<M::From>, store: &mut M)
    ensures source { reading.new ≡ record reading.old { source = None } }
    ensures recordings { (M.shelf store.new).recording ≡ (M.shelf store.old).recording }
    ensures faults { (M.shelf store.old).faults ≤ (M.shelf store.new).faults }
    ensures fault { HasFailed M.From.feed reading.old.source
        → Rises (M.shelf store.old).faults (M.shelf store.new).faults }
    ensures lent { (M.shelf store.new).lent ≡ (M.shelf store.old).lent - held reading.old.source }
    ensures peak { (M.shelf store.new).peak ≡ (M.shelf store.old).peak }
{
    if let Some(source) = reading.source.take() {
        store.back(source);
    }
}

// Returns whether the reading is for this tune number.
fn is_read(tune: Option<u64>, number: u64) -> bool
    ensures read { IsTrue result ↔ (tune ≡ Some number) }
{
    tune == Some(number)
}

// Opens the recording of a multiplex. Returns `None` if that fails.
fn begin<M: MuxStore>(store: &mut M, mux: u16) -> Option<M::From>
    ensures recordings { (M.shelf store.new).recording ≡ (M.shelf store.old).recording }
    ensures begins { Begins M.From.tells M.From.feed ((M.shelf store.old).recording mux)
        (M.shelf store.old).faults (M.shelf store.new).faults result }
    ensures lent { (M.shelf store.new).lent ≡ (M.shelf store.old).lent + held result }
    ensures peak { (M.shelf store.new).peak ≤ max (M.shelf store.old).peak
        ((M.shelf store.old).lent + 1) }
{
    match store.start(mux) {
        Ok(source) => Some(source),
        Err(_) => None,
    }
}

/// Reads for a tuning. Continues the recording if the tune number is the same, and else begins the
/// recording of the multiplex.
pub(crate) fn turn_to<M: MuxStore>(
    reading: &mut Reading<M::From>,
    store: &mut M,
    mux: u16,
    tune: u64,
)
    ensures goes { GoesTo M.From.tells M.From.feed mux tune
        (read_state M.shelf store.old reading.old) (read_state M.shelf store.new reading.new) }
    ensures recordings { (M.shelf store.new).recording ≡ (M.shelf store.old).recording }
    ensures tune { reading.new.tune ≡ Some tune }
    ensures fewer { length reading.new.buffer.packets ≤ length reading.old.buffer.packets }
    ensures lent { held reading.old.source ≤ (M.shelf store.old).lent
        → (M.shelf store.new).lent + held reading.old.source
        ≡ (M.shelf store.old).lent + held reading.new.source }
    ensures peak { (M.shelf store.new).peak ≤ max (M.shelf store.old).peak
        ((M.shelf store.old).lent - held reading.old.source + 1) }
{
    if is_read(reading.tune, tune) {
        return;
    }
    hand_back(reading, store);
    reading.tune = Some(tune);
    reading.buffer.clear();
    reading.source = begin(store, mux);
}

// Reads on in the source, at most the bytes of `packets` packets. Hands the source back if it is at
// its end or failed. Returns whether to go on: false if there is nothing to read, or no room.
fn read_more<M: MuxStore>(reading: &mut Reading<M::From>, store: &mut M, packets: usize) -> bool
    requires few { length reading.old.buffer.rest < 188 }
    requires none { cut_packets reading.old.buffer.rest ≡ [] }
    requires some { 1 ≤ packets }
    requires most { packets ≤ 64 }
    ensures reads_on { ReadsOn M.From.tells M.From.feed
        (read_state M.shelf store.old reading.old) (read_state M.shelf store.new reading.new) }
    ensures shut { result ≡ false → reading.new.buffer.packets ≡ [] → reading.new.source ≡ None }
    ensures packets { reading.new.buffer.packets ≡ reading.old.buffer.packets }
    ensures room { reading.new.buffer.room ≡ reading.old.buffer.room }
{
    let Some(source) = &mut reading.source else {
        return false;
    };
    if reading.buffer.make_space() == 0 {
        return false;
    }
    match reading.buffer.take(source, packets) {
        Taken::Got(_) => true,
        Taken::End => {
            hand_back(reading, store);
            false
        }
        Taken::Failed => {
            hand_back(reading, store);
            false
        }
    }
}

// Finds one packet in the rest, or else reads on, at most the bytes of `packets` packets. Returns
// whether to go on: false if there is nothing to read, or no room.
fn read_one<M: MuxStore>(reading: &mut Reading<M::From>, store: &mut M, packets: usize) -> bool
    requires some { 1 ≤ packets }
    requires room { packets ≤ reading.old.buffer.room }
    requires most { packets ≤ 64 }
    ensures reads_on { ReadsOn M.From.tells M.From.feed
        (read_state M.shelf store.old reading.old) (read_state M.shelf store.new reading.new) }
    ensures shut { result ≡ false → reading.new.buffer.packets ≡ [] → reading.new.source ≡ None }
    ensures most { length reading.new.buffer.packets ≤ length reading.old.buffer.packets + 1 }
    ensures room { reading.new.buffer.room + length reading.new.buffer.packets
        ≡ reading.old.buffer.room + length reading.old.buffer.packets }
{
    if reading.buffer.cut() {
        return true;
    }
    read_more(reading, store, packets)
}

/// If no packet waits, reads until `most` packets wait, nothing is left to read, or there is no
/// room after the waiting packets. Blocks on the source.
pub(crate) fn fill<R: Wait, M: MuxStore>(
    rt: &R,
    reading: &mut Reading<M::From>,
    store: &mut M,
    most: usize,
)
    requires few { length reading.old.buffer.packets ≤ most }
    requires some { 1 ≤ most }
    requires most { most ≤ 64 }
    ensures reads_on { ReadsOn M.From.tells M.From.feed
        (read_state M.shelf store.old reading.old) (read_state M.shelf store.new reading.new) }
    ensures most { length reading.new.buffer.packets ≤ most }
    ensures empty { reading.new.buffer.packets ≡ [] → reading.new.source ≡ None }
{
    if reading.buffer.count() != 0 {
        return;
    }
    reading.buffer.renew();
    for _ in rt.forever() {
        let count = reading.buffer.count();
        if count == most {
            return;
        }
        if !read_one(reading, store, most - count) {
            return;
        }
    }
    unreachable!()
}
