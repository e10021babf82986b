//! The arrivals of requests, for jobs that have nothing to do until then.

use std::alloc::{AllocError, Global};
use std::sync::Wait;
use std::sync::atomic::{AtomicU64, Ordering};
use std::thread::Parker;
use std::time::Duration;

/// The count of what came from clients, and of the ends of doors. Each of the jobs that wait for it
/// has a place, from 0.
#[derive(Drop)]
pub struct Arrivals {
    count: AtomicU64,
    ends: AtomicU64,
    places: Vec<Parker>,
}

impl Arrivals {
    /// Creates the count of a server to which nothing came, with places for this number of jobs.
    pub fn with_places(alloc: Global, count: usize) -> Result<Arrivals, AllocError> {
        let mut places = Vec::new(alloc);
        for _ in 0..count {
            places.push(Parker::new())?;
        }
        Ok(Arrivals {
            count: AtomicU64::new(0),
            ends: AtomicU64::new(0),
            places,
        })
    }

    /// Counts the end or a fault of doors, and ends all waits for it. The server may stop a little
    /// later.
    pub fn add(&self) {
        self.ends.fetch_add(1, Ordering::SeqCst);
        self.add_piece();
    }

    /// Counts a piece of input whose events are all made, and ends all waits for it.
    pub fn add_piece(&self) {
        self.count.fetch_add(1, Ordering::SeqCst);
        for place in &self.places {
            place.unpark();
        }
    }

    /// Returns the count of pieces and of ends of doors.
    pub fn count(&self) -> u64 {
        self.count.load(Ordering::SeqCst)
    }

    /// Returns the count of ends of doors.
    pub fn ends(&self) -> u64 {
        self.ends.load(Ordering::SeqCst)
    }

    /// Waits at a place for an arrival since the last wait there, for up to `limit`.
    pub fn wait<R: Wait>(&self, rt: &R, place: usize, limit: Duration) {
        if let Some(parker) = self.places.get(place) {
            parker.park_timeout(rt, limit);
        }
    }
}
