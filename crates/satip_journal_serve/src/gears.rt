//! The journals of jobs, before the jobs begin and after they have ended.

ghost use Rattle.std.specs.Prelude.{◌≡◌, ◌+◌, ◌^◌, ◌<◌, ◌≤◌, ◌++◌, ◌||◌, [], ◌∷◌, false, vec_len, vec_capacity};
ghost use Rattle.satip_journal_serve.specs.SinkGears.{AreOpen, HasBegun, has_failed, others_of, sinks_of};

use satip_desk::JobSink;
use satip_entry_writer::LineRoom;
use satip_jobs::{put_last, take_first};
use satip_journal::JournalGear;

/// The parts of all jobs' journals without their callers: those of job 0, which executes the stop,
/// of the workers, of the pumps and of the ticker.
#[derive(Drop)]
pub(crate) struct Gears<K> {
    pub root: JournalGear<K>,
    pub workers: Vec<JournalGear<K>>,
    pub pumps: Vec<JournalGear<K>>,
    pub ticker: JournalGear<K>,
}

// Takes the next sink and line, and returns the journal of the job of this number.
fn next_gear<K: JobSink>(
    sinks: &mut Vec<K>,
    lines: &mut Vec<LineRoom>,
    number: u64,
) -> JournalGear<K>
    requires sinks { 0 < vec_len sinks.old }
    requires lines { 0 < vec_len lines.old }
    ensures first { sinks.old.items ≡ result.sink ∷ sinks.new.items }
    ensures count { vec_len sinks.old ≡ vec_len sinks.new + 1 }
    ensures capacity { vec_capacity sinks.new ≡ vec_capacity sinks.old }
    ensures lines { vec_len lines.old ≡ vec_len lines.new + 1 }
    ensures number { result.number ≡ number }
    ensures open { result.failed ≡ false }
{
    let sink = take_first(sinks);
    let line = take_first(lines);
    JournalGear::new(number, sink, line)
}

// Fills `gears` with the journals of `count` jobs, numbered from `first` on, with the next sinks.
fn next_gears<K: JobSink>(
    sinks: &mut Vec<K>,
    lines: &mut Vec<LineRoom>,
    gears: &mut Vec<JournalGear<K>>,
    first: u64,
    count: usize,
)
    requires none { gears.old.items ≡ [] }
    requires sinks { count ≤ vec_len sinks.old }
    requires lines { count ≤ vec_len lines.old }
    requires space { count ≤ vec_capacity gears.old }
    requires small { first + count < 2 ^ 64 }
    ensures sinks { sinks.old.items ≡ sinks_of gears.new.items ++ sinks.new.items }
    ensures open { AreOpen first gears.new.items }
    ensures count { vec_len gears.new ≡ count }
    ensures left { vec_len sinks.old ≡ vec_len sinks.new + count }
    ensures capacity { vec_capacity sinks.new ≡ vec_capacity sinks.old }
    ensures lines { vec_len lines.old ≡ vec_len lines.new + count }
{
    let mut number = first;
    'jobs: while gears.len() < count {
        let gear = next_gear(sinks, lines, number);
        put_last(gears, gear);
        number += 1;
    }
}

// Appends the sinks of journals to `sinks`. Returns whether a put on one of them failed.
fn give_back<K: JobSink + Drop>(gears: &mut Vec<JournalGear<K>>, sinks: &mut Vec<K>) -> bool
    requires space { vec_len sinks.old + vec_len gears.old ≤ vec_capacity sinks.old }
    ensures sinks { sinks.new.items ≡ sinks.old.items ++ sinks_of gears.old.items }
    ensures count { vec_len sinks.new ≡ vec_len sinks.old + vec_len gears.old }
    ensures capacity { vec_capacity sinks.new ≡ vec_capacity sinks.old }
    ensures failed { result ≡ has_failed gears.old.items }
{
    let mut failed = false;
    'gears: while !gears.is_empty() {
        let gear = take_first(gears);
        let one = give_one(gear, sinks);
        failed = either(failed, one);
    }
    failed
}

// Appends the sink of a journal to `sinks`. Returns whether a put on it failed.
fn give_one<K: JobSink + Drop>(gear: JournalGear<K>, sinks: &mut Vec<K>) -> bool
    requires space { vec_len sinks.old < vec_capacity sinks.old }
    ensures sinks { sinks.new.items ≡ sinks.old.items ++ gear.sink ∷ [] }
    ensures count { vec_len sinks.new ≡ vec_len sinks.old + 1 }
    ensures capacity { vec_capacity sinks.new ≡ vec_capacity sinks.old }
    ensures failed { result ≡ gear.failed }
{
    let JournalGear {
        number: _,
        sink,
        line: _,
        failed,
    } = gear;
    put_last(sinks, sink);
    failed
}

fn either(first: bool, second: bool) -> bool
    ensures either { result ≡ (first || second) }
{
    first || second
}

// Returns the journals of all jobs, in order, each with its sink. That of job 0 has the start line.
pub(crate) fn begin_journals<K: JobSink>(
    sinks: &mut Vec<K>,
    lines: &mut Vec<LineRoom>,
    mut worker_gears: Vec<JournalGear<K>>,
    mut pump_gears: Vec<JournalGear<K>>,
    workers: usize,
    pumps: usize,
    start: u64,
) -> Gears<K>
    requires no_workers { worker_gears.items ≡ [] }
    requires no_pumps { pump_gears.items ≡ [] }
    requires worker_space { workers ≤ vec_capacity worker_gears }
    requires pump_space { pumps ≤ vec_capacity pump_gears }
    requires sinks { vec_len sinks.old ≡ workers + pumps + 2 }
    requires lines { vec_len lines.old ≡ workers + pumps + 2 }
    requires few_workers { workers < 2 ^ 32 }
    requires few_pumps { pumps < 2 ^ 32 }
    ensures begun { HasBegun K.tells K.job K.drain start sinks.old.items result.root
        (others_of result) }
    ensures none { sinks.new.items ≡ [] }
    ensures workers { vec_len result.workers ≡ workers }
    ensures pumps { vec_len result.pumps ≡ pumps }
    ensures capacity { vec_capacity sinks.new ≡ vec_capacity sinks.old }
{
    let mut root = next_gear(sinks, lines, 0);
    root.start(start);
    next_gears(sinks, lines, &mut worker_gears, 1, workers);
    next_gears(sinks, lines, &mut pump_gears, 1 + workers as u64, pumps);
    let ticker = next_gear(sinks, lines, 1 + workers as u64 + pumps as u64);
    Gears {
        root,
        workers: worker_gears,
        pumps: pump_gears,
        ticker,
    }
}

// Gives all sinks back, in the order of jobs. Returns whether a put on one of them failed.
pub(crate) fn end_journals<K: JobSink + Drop>(mut gears: Gears<K>, sinks: &mut Vec<K>) -> bool
    requires none { sinks.old.items ≡ [] }
    requires space { vec_len gears.workers + vec_len gears.pumps + 2 ≤ vec_capacity sinks.old }
    ensures sinks { sinks.new.items ≡ sinks_of (gears.root ∷ others_of gears) }
    ensures failed { result ≡ has_failed (gears.root ∷ others_of gears) }
{
    let first = give_one(gears.root, sinks);
    let second = give_back(&mut gears.workers, sinks);
    let third = give_back(&mut gears.pumps, sinks);
    let last = give_one(gears.ticker, sinks);
    either(first, either(second, either(third, last)))
}
