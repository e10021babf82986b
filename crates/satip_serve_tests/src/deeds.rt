//! What the jobs of a run did so far, which they wait for and which no other job may hold up.

use std::sync::atomic::{AtomicBool, AtomicU64, Ordering};

/// How often a connection or a pause looks before it gives up.
pub const TRIES: u64 = 10_000_000;

/// One of two connections.
#[derive(Clone, Copy, PartialEq, Eq)]
pub enum Place {
    First,
    Second,
}

/// What must have been done: so many replies on each connection, so many transport packets in
/// datagrams, and so many readings of the clock; so many times the first connection was idle behind
/// its second reply, and so many sends of frames on it behind that; and so many jobs paused.
#[derive(Clone, Copy)]
pub struct Gate {
    pub first: u64,
    pub second: u64,
    pub packets: u64,
    pub readings: u64,
    pub idles: u64,
    pub frames: u64,
    pub jobs: u64,
}

/// Nothing must have been done.
pub const OPEN: Gate = Gate {
    first: 0,
    second: 0,
    packets: 0,
    readings: 0,
    idles: 0,
    frames: 0,
    jobs: 0,
};

/// What was done so far on all devices of a run.
#[derive(Drop)]
pub struct Deeds {
    first: AtomicU64,
    second: AtomicU64,
    packets: AtomicU64,
    readings: AtomicU64,
    idles: AtomicU64,
    frames: AtomicU64,
    jobs: AtomicU64,
    gave_up: AtomicBool,
}

impl Deeds {
    pub fn new() -> Deeds {
        Deeds {
            first: AtomicU64::new(0),
            second: AtomicU64::new(0),
            packets: AtomicU64::new(0),
            readings: AtomicU64::new(0),
            idles: AtomicU64::new(0),
            frames: AtomicU64::new(0),
            jobs: AtomicU64::new(0),
            gave_up: AtomicBool::new(false),
        }
    }

    /// A reply was sent.
    pub fn reply(&self, place: Place) {
        match place {
            Place::First => self.first.fetch_add(1, Ordering::SeqCst),
            Place::Second => self.second.fetch_add(1, Ordering::SeqCst),
        };
    }

    /// Nothing came in on a connection.
    pub fn idle(&self, place: Place) {
        if place == Place::First && self.first.load(Ordering::SeqCst) >= 2 {
            self.idles.fetch_add(1, Ordering::SeqCst);
        }
    }

    /// Frames were sent on a connection.
    pub fn frame(&self, place: Place) {
        if place == Place::First && self.idles.load(Ordering::SeqCst) >= 1 {
            self.frames.fetch_add(1, Ordering::SeqCst);
        }
    }

    /// So many transport packets were sent.
    pub fn send(&self, packets: u64) {
        self.packets.fetch_add(packets, Ordering::SeqCst);
    }

    /// The clock was read.
    pub fn read(&self) {
        self.readings.fetch_add(1, Ordering::SeqCst);
    }

    /// A job paused for the first time.
    pub fn pause(&self) {
        self.jobs.fetch_add(1, Ordering::SeqCst);
    }

    /// A connection waited in vain.
    pub fn give_up(&self) {
        self.gave_up.store(true, Ordering::SeqCst);
    }

    pub fn gave_up(&self) -> bool {
        self.gave_up.load(Ordering::SeqCst)
    }

    /// Whether all that the gate asks for was done.
    pub fn open(&self, gate: Gate) -> bool {
        self.first.load(Ordering::SeqCst) >= gate.first
            && self.second.load(Ordering::SeqCst) >= gate.second
            && self.packets.load(Ordering::SeqCst) >= gate.packets
            && self.readings.load(Ordering::SeqCst) >= gate.readings
            && self.idles.load(Ordering::SeqCst) >= gate.idles
            && self.frames.load(Ordering::SeqCst) >= gate.frames
            && self.jobs.load(Ordering::SeqCst) >= gate.jobs
    }
}
