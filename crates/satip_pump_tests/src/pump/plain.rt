//! The plain body of a pump: a cutter that is fed piece by piece, and a list of the packets that it
//! handed out, each given by an event of its own.

use super::script::Scripted;
use satip_base::{Out, Source, Taken};
use satip_memory::{MemoryRecording, MemoryStore};
use satip_plain::{Answer, Event, Service, Work};
use satip_ts::{Cutter, Packet};
use satip_world::MuxStore;
use std::alloc::Global;
use std::test::Fail;

const FRONT: u16 = 1;

// How many packets it gives between two pauses.
const MOST: usize = 64;

const PIECE: usize = 3760;

// More than any run takes.
const STEPS: u32 = 100_000;

/// The pump of front end 1.
#[derive(Drop)]
pub(crate) struct PlainPump {
    tune: Option<u64>,
    source: Option<MemoryRecording>,
    cutter: Cutter,
    waiting: Vec<Packet>,
    given: usize,
    since: usize,
    pub pauses: u64,
}

// Makes an event, and says what is to be done next.
fn work_after(service: &mut Scripted, event: &Event, out: &mut Out) -> Result<Work, Fail> {
    match service.call(event, out) {
        Ok(Answer::Work(work)) => Ok(work),
        _ => Err(Fail::from("an answer without work")),
    }
}

impl PlainPump {
    pub(crate) fn new(alloc: Global) -> PlainPump {
        PlainPump {
            tune: None,
            source: None,
            cutter: Cutter::new(),
            waiting: Vec::new(alloc),
            given: 0,
            since: 0,
            pauses: 0,
        }
    }

    /// Makes all its events, until the service stops.
    pub(crate) fn run(
        &mut self,
        service: &mut Scripted,
        store: &mut MemoryStore,
        out: &mut Out,
    ) -> Result<(), Fail> {
        let mut work = work_after(service, &Event::Ask { front: FRONT }, out)?;
        for _ in 0..STEPS {
            if work == Work::Stopping {
                self.hand_back(store);
                return Ok(());
            }
            work = self.step(service, store, work, out)?;
        }
        Err(Fail::from("the service doesn't stop"))
    }

    // Does what an answer told.
    fn step(
        &mut self,
        service: &mut Scripted,
        store: &mut MemoryStore,
        work: Work,
        out: &mut Out,
    ) -> Result<Work, Fail> {
        let Work::Tune { mux, tune } = work else {
            self.pauses = self.pauses.saturating_add(1);
            return work_after(service, &Event::Ask { front: FRONT }, out);
        };
        self.turn_to(store, mux, tune);
        if self.given >= self.waiting.len() {
            self.fill(store)?;
        }
        let Some(packet) = self.waiting.get(self.given).copied() else {
            return work_after(service, &Event::Ended { front: FRONT, tune }, out);
        };
        let event = Event::Packet {
            front: FRONT,
            tune,
            packet,
        };
        let next = work_after(service, &event, out)?;
        self.pass();
        Ok(next)
    }

    fn turn_to(&mut self, store: &mut MemoryStore, mux: u16, tune: u64) {
        if self.tune == Some(tune) {
            return;
        }
        self.hand_back(store);
        self.tune = Some(tune);
        self.cutter = Cutter::new();
        self.waiting.clear();
        self.given = 0;
        self.source = store.start(mux).ok();
    }

    fn hand_back(&mut self, store: &mut MemoryStore) {
        if let Some(source) = self.source.take() {
            store.back(source);
        }
    }

    // A packet was given.
    fn pass(&mut self) {
        self.given = self.given.saturating_add(1);
        self.since = self.since.saturating_add(1);
        if self.since == MOST {
            self.since = 0;
            self.pauses = self.pauses.saturating_add(1);
        }
    }

    // Cuts as many packets as it gives before its next pause, or as there are.
    fn fill(&mut self, store: &mut MemoryStore) -> Result<(), Fail> {
        self.waiting.clear();
        self.given = 0;
        for _ in 0..STEPS {
            if self.waiting.len() >= MOST.saturating_sub(self.since) {
                return Ok(());
            }
            if let Some(packet) = self.cutter.next() {
                self.waiting.push(packet)?;
            } else if !self.read_on(store) {
                return Ok(());
            }
        }
        Err(Fail::from("the recording doesn't end"))
    }

    // Takes a piece. Whether there is more to read.
    fn read_on(&mut self, store: &mut MemoryStore) -> bool {
        let Some(source) = &mut self.source else {
            return false;
        };
        let mut buf = [0; PIECE];
        if let Taken::Got(count) = source.take(&mut buf) {
            self.cutter.feed(&buf[..count]);
            return true;
        }
        self.hand_back(store);
        false
    }
}
