//! Counts that one thread at a time writes and others read.

use std::sync::atomic::{AtomicU64, Ordering};

/// A count since the start of a server, or another number. One thread at a time writes it, and
/// waits for no other.
#[derive(Drop)]
pub struct Count {
    number: AtomicU64,
}

impl Count {
    /// Creates a count of 0.
    pub fn new() -> Count {
        Count::at(0)
    }

    /// Creates a number.
    pub fn at(number: u64) -> Count {
        Count {
            number: AtomicU64::new(number),
        }
    }

    /// Adds to the count.
    pub fn add(&self, more: u64) {
        self.number.fetch_add(more, Ordering::SeqCst);
    }

    /// Sets the number.
    pub fn set(&self, number: u64) {
        self.number.store(number, Ordering::SeqCst);
    }

    /// Returns the number.
    pub fn get(&self) -> u64 {
        self.number.load(Ordering::SeqCst)
    }
}
