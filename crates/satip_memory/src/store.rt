//! A store of recordings over memory.

ghost use Rattle.std.specs.Prelude.{◌≡◌, ◌==◌, ◌∷◌, map, IfOk, IfSome, OnOk, OnErr};
ghost use Rattle.std.specs.Option.{option_copied};
ghost use Rattle.std.specs.List.{find};
ghost use Rattle.satip_world.specs.Recordings.{IsStarted};
ghost use Rattle.satip_memory.specs.Shelves.{recording_in, store_view};
ghost use Rattle.satip_memory.specs.Reels.{row_of};

use crate::failures::Failures;
use crate::streams::MemorySource;
use satip_base::{Failed, Source, Taken, Want};
use satip_world::MuxStore;
use std::alloc::Global;
use std::marker::Model;

// The recording of a multiplex, the sizes of its takes, and which of them fail.
#[derive(Drop)]
struct Reel {
    mux: u16,
    text: Vec<u8>,
    pieces: Vec<usize>,
    failing: Vec<u64>,
}

/// A recording that is read.
#[derive(Drop)]
pub struct MemoryRecording {
    source: MemorySource,
    faults: u64,
}

impl Model for MemoryRecording {
    ghost use Rattle.satip_base.specs.Streams.{Feed};

    ghost Value = { Feed };

    ghost view = { λ r. record {
      left = r.source.left;
      ended = r.source.ended;
      faults = r.faults;
      taken = r.source.taken;
    } };
}

impl Source for MemoryRecording {
    ghost tells = { Unit {0} };

    ghost feed = { λ r. r };

    fn take(&mut self, buf: &mut [u8]) -> Taken {
        match self.source.take(buf) {
            Taken::Got(count) => Taken::Got(count),
            Taken::End => Taken::End,
            Taken::Failed => {
                self.faults = self.faults.saturating_add(1);
                Taken::Failed
            }
        }
    }
}

/// A store of given recordings.
#[derive(Drop)]
pub struct MemoryStore {
    alloc: Global,
    reels: Vec<Reel>,
    failures: Failures,
    faults: u64,
    lent: u64,
    peak: u64,
}

impl Model for MemoryStore {
    ghost use Rattle.satip_memory.specs.Shelves.{Shelf};
    ghost use Rattle.std.specs.Prelude.{map};
    ghost use Rattle.satip_memory.specs.Reels.{row_of};

    ghost Value = { Shelf };

    ghost view = { λ s. record {
      recordings = map row_of s.reels.items;
      faults = s.faults;
      lent = s.lent;
      peak = s.peak;
    } };
}

impl MemoryStore {
    ghost use Rattle.satip_memory.specs.Shelves.{empty_shelf};

    /// Creates a store without recordings. The starts with a number, from 1, in `failing` fail. So
    /// does each start of a multiplex without a recording.
    pub fn make(alloc: Global, failing: &[u64]) -> Result<MemoryStore, Want>
        ensures ok { IfOk result (λ store. store ≡ empty_shelf) }
    {
        Ok(MemoryStore {
            alloc,
            reels: Vec::new(alloc),
            failures: Failures::make(alloc, failing)?,
            faults: 0,
            lent: 0,
            peak: 0,
        })
    }

    /// Adds the recording of a multiplex, instead of one that it has. Its takes give at most as
    /// many bytes as `pieces` says, one after the other. Those with a number, from 1, in `failing`
    /// fail.
    pub fn add(
        &mut self,
        mux: u16,
        text: &[u8],
        pieces: &[usize],
        failing: &[u64],
    ) -> Result<(), Want>
        ensures added { OnOk result (self.new.recordings ≡ (mux, text.now) ∷ self.old.recordings) }
        ensures same { OnErr result (self.new.recordings ≡ self.old.recordings) }
        ensures faults { self.new.faults ≡ self.old.faults }
        ensures lent { self.new.lent ≡ self.old.lent }
        ensures peak { self.new.peak ≡ self.old.peak }
    {
        let (Ok(text), Ok(pieces), Ok(failing)) = (
            Vec::from_slice(self.alloc, text),
            Vec::from_slice(self.alloc, pieces),
            Vec::from_slice(self.alloc, failing),
        ) else {
            return Err(Want);
        };
        let reel = Reel {
            mux,
            text,
            pieces,
            failing,
        };
        match self.reels.insert(0, reel) {
            Ok(()) => Ok(()),
            Err(_) => Err(Want),
        }
    }

    /// Returns the count of recordings that were started and not handed back.
    pub fn lent(&self) -> u64
        ensures lent { result ≡ self.now.lent }
    {
        self.lent
    }

    /// Returns the most recordings that were started and not handed back at one time.
    pub fn peak(&self) -> u64
        ensures peak { result ≡ self.now.peak }
    {
        self.peak
    }
}

// Opens the recording of a multiplex from its beginning. Returns None if there is none, or if it is
// out of memory.
fn open(alloc: Global, reels: &[Reel], mux: u16) -> Option<MemoryRecording>
    ensures started { IfSome result (λ from. IsStarted (Unit {0}) from
        (recording_in (map row_of reels.now) mux)) }
{
    let Some(reel) = find_reel(reels, mux) else {
        return None;
    };
    match MemorySource::make(alloc, &reel.text, &reel.pieces, &reel.failing) {
        Ok(source) => Some(MemoryRecording { source, faults: 0 }),
        Err(_) => None,
    }
}

fn find_reel(reels: &[Reel], mux: u16) -> Option<&Reel>
    ensures found { option_copied result ≡ find (λ reel. reel.mux == mux) reels.now }
{
    reels.iter().find(|reel| reel.mux == mux)
}

impl MuxStore for MemoryStore {
    type From = MemoryRecording;

    ghost shelf = { store_view };

    fn start(&mut self, mux: u16) -> Result<MemoryRecording, Failed> {
        if self.failures.meets_one() || self.lent == u64::MAX {
            self.faults = self.faults.saturating_add(1);
            return Err(Failed);
        }
        match open(self.alloc, &self.reels, mux) {
            Some(from) => {
                self.lent += 1;
                self.peak = self.peak.max(self.lent);
                Ok(from)
            }
            None => {
                self.faults = self.faults.saturating_add(1);
                Err(Failed)
            }
        }
    }

    fn back(&mut self, from: MemoryRecording) {
        self.lent = self.lent.saturating_sub(1);
        if from.faults != 0 {
            self.faults = self.faults.saturating_add(1);
        }
    }
}
