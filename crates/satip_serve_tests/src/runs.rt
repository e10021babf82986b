//! Runs of the program over memory streams and a desk whose devices wait for each other.

ghost use Rattle.std.specs.Prelude.{◌≡◌, None};
ghost use Rattle.satip_desk.specs.Handed.{nothing_handed};

use crate::deeds::Deeds;
use crate::outcomes::Outcome;
use crate::waiting_desk::{Plan, WaitingDesk};
use satip_base::Text;
use satip_desk::Desk;
use satip_memory::{MemorySink, MemorySource};
use satip_program::{Ended, satip};
use std::alloc::Global;
use std::fmt::Debug;
use std::process::Abort;
use std::sync::Wait;
use std::thread::Threads;

/// A serve by c1.toml, with one connection for each worker.
pub const SERVE: &[&str] = &["serve", "c1.toml", "1"];

/// A serve without a limit of connections.
pub const SERVE_ALL: &[&str] = &["serve", "c1.toml", "0"];

/// A serve with journals, with one connection for each worker.
pub const JOURNAL: &[&str] = &["journal", "c1.toml", "1"];

/// A serve with journals without a limit of connections.
pub const JOURNAL_ALL: &[&str] = &["journal", "c1.toml", "0"];

/// A serve through a tunnel, with one connection for each worker.
pub const TUNNEL: &[&str] = &["tunnel", "c1.toml", "1"];

/// A serve through a tunnel without a limit of connections.
pub const TUNNEL_ALL: &[&str] = &["tunnel", "c1.toml", "0"];

/// The verdict on journals.
pub const AUDIT: &[&str] = &["audit", "c1.toml"];

// The words of a run, its input and its outputs.
#[derive(Drop)]
struct Streams {
    words: Vec<Text>,
    input: MemorySource,
    output: MemorySink,
    errors: MemorySink,
}

/// The end of a run, and the bytes that it wrote.
#[derive(Drop)]
pub struct Ran<'a> {
    pub ended: Ended<WaitingDesk<'a>>,
    streams: Streams,
}

impl<'a> Ran<'a> {
    /// Returns the outcome of a run with this number of workers. `served` is the outcome for the
    /// workers' kits, if jobs began.
    pub fn outcome(&self, workers: usize, served: Option<Outcome>) -> Outcome {
        match (self.ended.status, served, &self.ended.unused) {
            (0, Some(served), None) => served,
            (70, None, Some(jobs)) if jobs.workers.len() == workers => Outcome::KitsUnused,
            (70, None, None) => Outcome::NoKits,
            (5, None, None) => Outcome::NoConfiguration,
            _ => Outcome::Wrong,
        }
    }

    /// Returns the exit status, and what was written on the output and on the errors' sink.
    pub fn written(&self) -> (u8, &[u8], &[u8]) {
        let streams = &self.streams;
        (
            self.ended.status,
            streams.output.sent(),
            streams.errors.sent(),
        )
    }
}

fn make_words(rt: &impl Abort, alloc: Global, words: &[&str]) -> Vec<Text> {
    let mut texts = Vec::new(alloc);
    for word in words {
        let text = Text::of(alloc, word).expect(rt, "out of memory");
        texts.push(text).expect(rt, "out of memory");
    }
    texts
}

fn make_streams(rt: &impl Abort, alloc: Global, words: &[&str], input: &[u8]) -> Streams {
    Streams {
        words: make_words(rt, alloc, words),
        input: MemorySource::make(alloc, input, &[], &[]).expect(rt, "out of memory"),
        output: MemorySink::make(alloc, &[], 0).expect(rt, "out of memory"),
        errors: MemorySink::make(alloc, &[], 0).expect(rt, "out of memory"),
    }
}

// Runs the program over these streams.
fn run_over<R: Threads + Wait + Sync, K: Desk>(
    rt: &R,
    alloc: Global,
    streams: &mut Streams,
    desk: &mut K,
) -> Ended<K>
    requires new { (K.desk desk.old).given ≡ None }
    requires client { (K.desk desk.old).handed ≡ nothing_handed }
{
    satip(
        rt,
        alloc,
        &streams.words,
        &mut streams.input,
        &mut streams.output,
        &mut streams.errors,
        desk,
    )
}

/// Runs the program with these words over an input, and a desk with this plan.
pub fn run<'a, R: Threads + Wait + Sync + Abort>(
    rt: &R,
    alloc: Global,
    words: &[&str],
    input: &[u8],
    plan: Plan,
    deeds: &'a Deeds,
) -> Ran<'a> {
    let mut streams = make_streams(rt, alloc, words, input);
    let mut desk = WaitingDesk::new(alloc, deeds, plan);
    let ended = run_over(rt, alloc, &mut streams, &mut desk);
    Ran { ended, streams }
}

/// Asserts that a value of the run with this name is this one.
pub fn check<T: PartialEq + Debug + Drop>(rt: &impl Abort, name: &str, got: T, wanted: T) {
    assert_eq!(rt; got, wanted, "{name}");
}
