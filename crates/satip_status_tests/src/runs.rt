//! Runs of services over memory, each by its row.

ghost use Rattle.std.specs.Prelude.{◌≡◌, None};
ghost use Rattle.satip_desk.specs.Handed.{nothing_handed};

use crate::kits::{MemoryWorker, Plan, make_desk};
use crate::refusing::RefusingDesk;
use satip_base::Text;
use satip_desk::Desk;
use satip_fixtures::texts::OPTIONS_REPLY;
use satip_memory::{MemorySink, MemorySource};
use satip_memory_desk::MemoryDesk;
use satip_program::{Ended, satip};
use satip_world::ConnEnd;
use std::alloc::Global;
use std::fmt::Debug;
use std::process::Abort;
use std::sync::Wait;
use std::thread::Threads;

// The services.
const SERVICES: [&str; 3] = ["serve", "journal", "tunnel"];

/// The parts of a run's end that came back.
#[derive(Clone, Copy, Debug, PartialEq, Eq)]
pub(crate) struct Back {
    pub config: bool,
    pub last: bool,
    pub tunnel: bool,
    pub unused: bool,
    pub journals: usize,
}

/// Nothing came back.
pub(crate) const NOTHING: Back = Back {
    config: false,
    last: false,
    tunnel: false,
    unused: false,
    journals: 0,
};

/// A configuration came back, and nothing else.
pub(crate) const CONFIG_ALONE: Back = Back {
    config: true,
    ..NOTHING
};

/// The parts that must come back.
#[derive(Clone, Copy)]
pub(crate) enum Parts {
    /// These.
    These(Back),
    /// Those of a service with one worker whose jobs began.
    OfJobs,
}

/// A run of a service, and its result.
#[derive(Clone, Copy)]
pub(crate) struct Row {
    pub name: &'static str,
    pub plan: Plan,
    /// The words after the service's name.
    pub config: &'static str,
    pub accepts: &'static str,
    pub status: u8,
    pub errors: &'static [u8],
    pub parts: Parts,
    /// The number of connections that each worker handed back. Each was served to its end, with one
    /// reply to OPTIONS.
    pub served: &'static [usize],
}

// The desk of a run.
type RunDesk = RefusingDesk<MemoryDesk>;

/// The words of a run, its input and its outputs.
#[derive(Drop)]
pub(crate) struct Streams {
    words: Vec<Text>,
    input: MemorySource,
    output: MemorySink,
    errors: MemorySink,
}

/// The end of a run, and the bytes that it wrote.
#[derive(Drop)]
pub(crate) struct Ran {
    ended: Ended<RunDesk>,
    streams: Streams,
}

impl Ran {
    // Returns the kits of the workers that served, with a tunnel or without; none if no job began.
    fn workers(&self) -> &[MemoryWorker] {
        match (&self.ended.last, &self.ended.tunnel) {
            (Some(last), _) => &last.jobs.workers,
            (None, Some(last)) => &last.jobs.workers,
            (None, None) => &[],
        }
    }

    // Returns the parts that came back.
    fn back(&self) -> Back {
        Back {
            config: self.ended.config.is_some(),
            last: self.ended.last.is_some(),
            tunnel: self.ended.tunnel.is_some(),
            unused: self.ended.unused.is_some(),
            journals: self.ended.journals.len(),
        }
    }

    /// Returns the bytes of a job's journal.
    pub(crate) fn journal(&self, job: usize) -> &[u8] {
        match self.ended.journals.get(job) {
            Some(journal) => journal.sink().sent(),
            None => b"none",
        }
    }
}

// Returns the parts that must come back of a service.
fn back_of(service: &str, parts: Parts) -> Back {
    match (parts, service) {
        (Parts::These(back), _) => back,
        (Parts::OfJobs, "tunnel") => Back {
            tunnel: true,
            ..CONFIG_ALONE
        },
        (Parts::OfJobs, "journal") => Back {
            last: true,
            journals: 4,
            ..CONFIG_ALONE
        },
        (Parts::OfJobs, _) => Back {
            last: true,
            ..CONFIG_ALONE
        },
    }
}

fn make_words(rt: &impl Abort, alloc: Global, words: &[&str]) -> Vec<Text> {
    let mut texts = Vec::new(alloc);
    for word in words {
        let text = Text::of(alloc, word).expect(rt, "out of memory");
        texts.push(text).expect(rt, "out of memory");
    }
    texts
}

/// Creates the streams of a run with these words, without input.
pub(crate) fn make_streams(rt: &impl Abort, alloc: Global, words: &[&str]) -> Streams {
    Streams {
        words: make_words(rt, alloc, words),
        input: MemorySource::make(alloc, b"", &[], &[]).expect(rt, "out of memory"),
        output: MemorySink::make(alloc, &[], 0).expect(rt, "out of memory"),
        errors: MemorySink::make(alloc, &[], 0).expect(rt, "out of memory"),
    }
}

/// Runs the program over these streams.
pub(crate) fn run_over<R: Threads + Wait + Sync, K: Desk>(
    rt: &R,
    alloc: Global,
    streams: &mut Streams,
    desk: &mut K,
) -> Ended<K>
    requires new { (K.desk desk.old).given ≡ None }
    requires client { (K.desk desk.old).handed ≡ nothing_handed }
{
    satip(
        rt,
        alloc,
        &streams.words,
        &mut streams.input,
        &mut streams.output,
        &mut streams.errors,
        desk,
    )
}

// Runs the program with these words, without input, over the desk of a plan.
fn run<R: Threads + Wait + Sync + Abort>(rt: &R, alloc: Global, words: &[&str], plan: Plan) -> Ran {
    let mut streams = make_streams(rt, alloc, words);
    let mut desk = RefusingDesk::new(make_desk(rt, alloc, plan), plan.refuses);
    let ended = run_over(rt, alloc, &mut streams, &mut desk);
    Ran { ended, streams }
}

/// Asserts that a value of the row with this name is this one.
pub(crate) fn check<T: PartialEq + Debug + Drop>(rt: &impl Abort, name: &str, got: T, wanted: T) {
    assert_eq!(rt; got, wanted, "{name}");
}

// Asserts that a worker handed back this number of connections, each served to its end, with one
// reply to OPTIONS.
fn check_worker(rt: &impl Abort, name: &str, kit: &MemoryWorker, connections: usize) {
    let returned = kit.doors.returned();
    check(rt, name, returned.len(), connections);
    for handed in returned {
        let got = (handed.end, handed.conn.sent());
        check(rt, name, got, (ConnEnd::Done, OPTIONS_REPLY));
    }
}

// Asserts that each worker handed back its number of connections.
fn check_workers(rt: &impl Abort, name: &str, workers: &[MemoryWorker], served: &[usize]) {
    check(rt, name, workers.len(), served.len());
    for (kit, connections) in workers.iter().zip(served) {
        check_worker(rt, name, kit, *connections);
    }
}

/// Runs the program with these words over the desk of a row. Asserts, by this name, the result of
/// the row.
pub(crate) fn run_row<R: Threads + Wait + Sync + Abort>(
    rt: &R,
    alloc: Global,
    name: &str,
    words: &[&str],
    row: &Row,
) -> Ran {
    let ran = run(rt, alloc, words, row.plan);
    let streams = &ran.streams;
    let got = (
        ran.ended.status,
        streams.output.sent(),
        streams.errors.sent(),
    );
    check(rt, name, got, (row.status, b"".as_slice(), row.errors));
    let service = words.first().copied().unwrap_or("");
    check(rt, name, ran.back(), back_of(service, row.parts));
    check_workers(rt, name, ran.workers(), row.served);
    ran
}

/// Runs a service by a row, and asserts the result of the row.
pub(crate) fn run_service<R: Threads + Wait + Sync + Abort>(
    rt: &R,
    alloc: Global,
    service: &'static str,
    row: &Row,
) -> Ran {
    let words = [service, row.config, row.accepts];
    run_row(rt, alloc, row.name, &words, row)
}

/// Runs each service by each row, and asserts the result of the row.
pub(crate) fn run_services<R: Threads + Wait + Sync + Abort>(rt: &R, alloc: Global, rows: &[Row]) {
    for row in rows {
        for service in SERVICES {
            drop(run_service(rt, alloc, service, row));
        }
    }
}
