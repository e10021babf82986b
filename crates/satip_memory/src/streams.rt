//! A source and a sink over memory, which fail if the test says so.

ghost use Rattle.std.specs.Prelude.{◌≡◌, ◌≤◌, ◌++◌, IfOk, IsTrue, false};

use crate::failures::Failures;
use satip_base::{Put, Sink, Source, Taken, Want};
use std::alloc::Global;
use std::marker::Model;

// The most bytes that the calls give, one after the other.
#[derive(Drop)]
struct Pieces {
    lengths: Vec<usize>,
    next: usize,
}

impl Pieces {
    // Returns the most bytes of this call: at least one.
    fn next(&mut self) -> usize
        ensures some { 1 ≤ result }
    {
        let length = self.lengths.get(self.next).copied().unwrap_or(usize::MAX);
        self.next = self.next.saturating_add(1);
        length.max(1)
    }
}

/// A text that is taken in given pieces.
#[derive(Drop)]
pub struct MemorySource {
    text: Vec<u8>,
    place: usize,
    ended: bool,
    pieces: Pieces,
    failures: Failures,
    faults: u64,
}

impl Model for MemorySource {
    ghost use Rattle.std.specs.Prelude.{◌≡◌, ◌≤◌, drop, length, true};
    ghost use Rattle.satip_base.specs.Streams.{Feed};

    ghost Value = { Feed };

    ghost view = { λ s. record {
      left = drop s.place s.text.items;
      ended = s.ended;
      faults = s.faults;
      taken = s.place;
    } };

    ghost invariant = { λ s. (s.place ≤ length s.text.items)
        × (s.ended ≡ true → s.place ≡ length s.text.items) };
}

impl MemorySource {
    ghost use Rattle.satip_base.specs.Streams.{fresh_feed};

    /// Creates a source of the text. The takes give at most as many bytes as `pieces` says, one
    /// after the other, and at least one. After the last piece they give as many as there is room
    /// for. The takes with a number, from 1, in `failing` fail.
    pub fn make(
        alloc: Global,
        text: &[u8],
        pieces: &[usize],
        failing: &[u64],
    ) -> Result<MemorySource, Want>
        ensures ok { IfOk result (λ source. source ≡ fresh_feed text.now) }
    {
        let (Ok(text), Ok(lengths)) = (Vec::from_slice(alloc, text), Vec::from_slice(alloc, pieces))
        else {
            return Err(Want);
        };
        Ok(MemorySource {
            text,
            place: 0,
            ended: false,
            pieces: Pieces { lengths, next: 0 },
            failures: Failures::make(alloc, failing)?,
            faults: 0,
        })
    }
}

impl Source for MemorySource {
    ghost tells = { Unit {0} };

    ghost feed = { λ s. s };

    fn take(&mut self, buf: &mut [u8]) -> Taken {
        if self.ended {
            return Taken::End;
        }
        if self.failures.meets_one() {
            self.faults = self.faults.saturating_add(1);
            return Taken::Failed;
        }
        let left = self.text.len() - self.place;
        if left == 0 {
            self.ended = true;
            return Taken::End;
        }
        let count = self.pieces.next().min(buf.len()).min(left);
        buf[..count].copy_from_slice(&self.text[self.place..self.place + count]);
        self.place += count;
        Taken::Got(count)
    }
}

/// A sink that keeps the bytes sent.
#[derive(Drop)]
pub struct MemorySink {
    sent: Vec<u8>,
    passed: usize,
    failures: Failures,
    faults: u64,
}

impl Model for MemorySink {
    ghost use Rattle.satip_base.specs.Streams.{Drain};

    ghost Value = { Drain };

    ghost view = { λ s. record { sent = s.sent.items; faults = s.faults } };
}

impl MemorySink {
    ghost use Rattle.satip_base.specs.Streams.{fresh_drain};

    /// Creates an empty sink. The puts with a number, from 1, in `failing` fail, and pass `passed`
    /// bytes at most.
    pub fn make(alloc: Global, failing: &[u64], passed: usize) -> Result<MemorySink, Want>
        ensures ok { IfOk result (λ sink. sink ≡ fresh_drain) }
    {
        Ok(MemorySink {
            sent: Vec::new(alloc),
            passed,
            failures: Failures::make(alloc, failing)?,
            faults: 0,
        })
    }

    /// Returns the bytes that were sent.
    pub fn sent(&self) -> &[u8]
        ensures sent { result.now ≡ self.now.sent }
    {
        &self.sent
    }
}

// Appends bytes. Returns false if it is out of memory.
pub(crate) fn keep(sent: &mut Vec<u8>, bytes: &[u8]) -> bool
    ensures kept { IsTrue result → sent.new.items ≡ sent.old.items ++ bytes.now }
    ensures same { result ≡ false → sent.new.items ≡ sent.old.items }
{
    sent.extend_from_slice(bytes).is_ok()
}

impl Sink for MemorySink {
    ghost tells = { Unit {0} };

    ghost drain = { λ s. s };

    fn put(&mut self, bytes: &[u8]) -> Put {
        if self.failures.meets_one() {
            let (front, _) = bytes.split_at(self.passed.min(bytes.len()));
            keep(&mut self.sent, front);
            self.faults = self.faults.saturating_add(1);
            return Put::Failed;
        }
        if keep(&mut self.sent, bytes) {
            return Put::Whole;
        }
        self.faults = self.faults.saturating_add(1);
        Put::Failed
    }
}
