//! The command `journal` with jobs that wait for each other, and the audit of their journals.

use crate::deeds::Deeds;
use crate::runs::{AUDIT, JOURNAL, JOURNAL_ALL, Ran, check, run};
use crate::together::{PLAN, REPLIES, check_outcome, outcome};
use crate::waiting_desk::Plan;
use satip_base::read_number;
use std::alloc::Global;
use std::process::Abort;
use std::sync::Wait;
use std::thread::Threads;

// A serve with journals.
#[derive(Clone, Copy)]
struct Row {
    name: &'static str,
    words: &'static [&'static str],
    plan: Plan,
    // The number of jobs, each with a journal.
    jobs: usize,
}

const TWO_WORKERS: Row = Row {
    name: "two workers",
    words: JOURNAL,
    plan: PLAN,
    jobs: 6,
};

const EIGHT_WORKERS: Row = Row {
    name: "eight workers",
    plan: Plan { workers: 8, ..PLAN },
    jobs: 12,
    ..TWO_WORKERS
};

const WITHOUT_LIMIT: Row = Row {
    name: "two workers without a limit",
    words: JOURNAL_ALL,
    ..TWO_WORKERS
};

// The ticker's clock rises.
const RISING: Row = Row {
    name: "a clock that rises",
    plan: Plan { step: 1, ..PLAN },
    ..TWO_WORKERS
};

// Returns the bytes of a job's journal.
fn journal_of<'r>(ran: &'r Ran, job: usize) -> &'r [u8] {
    match ran.ended.journals.get(job) {
        Some(journal) => journal.sink().sent(),
        None => b"none",
    }
}

// Returns the number of the caller on an entry's line, which follows its place.
fn caller_of(line: &str) -> Option<u64> {
    let (_, rest) = line.strip_prefix("entry ")?.split_once(' ')?;
    let (caller, _) = rest.split_once(' ')?;
    read_number(caller.as_bytes(), u64::MAX)
}

// Asserts that each entry in the journal of a job has the job's number as its caller.
fn check_callers(rt: &impl Abort, job: u64, text: &[u8]) {
    for line in str::from_utf8(text).expect(rt, "text").lines() {
        if line.starts_with("entry ") {
            check(rt, line, caller_of(line), Some(job));
        }
    }
}

// Asserts that this number of jobs have each its own journal.
fn check_jobs(rt: &impl Abort, ran: &Ran, row: &Row) {
    check(rt, row.name, ran.ended.journals.len(), row.jobs);
    for (job, journal) in ran.ended.journals.iter().enumerate() {
        check(rt, row.name, journal.job(), job as u64);
        check_callers(rt, job as u64, journal.sink().sent());
    }
}

// Returns the journals one after another, the last one first.
fn joined(rt: &impl Abort, alloc: Global, ran: &Ran) -> Vec<u8> {
    let mut text = Vec::new(alloc);
    for journal in ran.ended.journals.iter().rev() {
        text.extend_from_slice(journal.sink().sent())
            .expect(rt, "out of memory");
    }
    text
}

// Returns the lines of a text, the last one first.
fn backwards(rt: &impl Abort, alloc: Global, text: &[u8]) -> Vec<u8> {
    let mut lines = Vec::new(alloc);
    for line in str::from_utf8(text).expect(rt, "text").lines() {
        lines.push(line).expect(rt, "out of memory");
    }
    let mut all = Vec::new(alloc);
    for line in lines.iter().rev() {
        all.extend_from_slice(line.as_bytes())
            .expect(rt, "out of memory");
        all.push(b'\n').expect(rt, "out of memory");
    }
    all
}

// Returns the number of entries in journals.
fn entries(rt: &impl Abort, text: &[u8]) -> u64 {
    let mut count: u64 = 0;
    for line in str::from_utf8(text).expect(rt, "text").lines() {
        if line.starts_with("entry ") {
            count = count.saturating_add(1);
        }
    }
    count
}

// Asserts that an audit by the configuration of a row says `yes` of all entries in these journals.
fn check_audit<R: Threads + Wait + Sync + Abort>(
    rt: &R,
    alloc: Global,
    row: &Row,
    journals: &[u8],
) {
    let deeds = Deeds::new();
    let audited = run(rt, alloc, AUDIT, journals, row.plan, &deeds);
    let count = entries(rt, journals);
    let verdict = format!(in alloc; "yes {count}\n").expect(rt, "out of memory");
    let wanted = (0, verdict.as_bytes(), b"".as_slice());
    check(rt, row.name, audited.written(), wanted);
}

// Serves by a row, and asserts that each job has its journal. Returns all journals.
fn journals_of<R: Threads + Wait + Sync + Abort>(rt: &R, alloc: Global, row: &Row) -> Vec<u8> {
    let deeds = Deeds::new();
    let ran = run(rt, alloc, row.words, b"", row.plan, &deeds);
    let outcome = outcome(&ran, row.plan.workers as usize, REPLIES);
    check_outcome(rt, row.name, &deeds, outcome);
    check_jobs(rt, &ran, row);
    joined(rt, alloc, &ran)
}

// Asserts that an audit says `yes` of the journals of a row in any order of their lines.
fn check_journals<R: Threads + Wait + Sync + Abort>(rt: &R, alloc: Global, row: &Row) {
    let journals = journals_of(rt, alloc, row);
    check_audit(rt, alloc, row, &journals);
    check_audit(rt, alloc, row, &backwards(rt, alloc, &journals));
}

#[test]
fn journals_of_two_workers_are_one_history(rt: HostRuntime) {
    for row in [TWO_WORKERS, WITHOUT_LIMIT] {
        check_journals(&rt, rt.alloc(), &row);
    }
}

#[test]
fn journals_of_eight_workers_are_one_history(rt: HostRuntime) {
    check_journals(&rt, rt.alloc(), &EIGHT_WORKERS);
}

// Returns the digits of an entry's line, which follow its place and its caller.
fn digits_of(line: &str) -> Option<&str> {
    let (_, place) = line.split_once(' ')?;
    let (_, caller) = place.split_once(' ')?;
    let (_, digits) = caller.split_once(' ')?;
    Some(digits)
}

// Returns the journal of the ticker, which is the last one.
fn ticks<R: Threads + Wait + Sync + Abort>(rt: &R, alloc: Global) -> Vec<u8> {
    let deeds = Deeds::new();
    let ran = run(rt, alloc, RISING.words, b"", RISING.plan, &deeds);
    check(rt, RISING.name, ran.ended.journals.len(), RISING.jobs);
    let last = journal_of(&ran, RISING.jobs.saturating_sub(1));
    Vec::from_slice(alloc, last).expect(rt, "out of memory")
}

// Asserts that a line has the entry of a tick at this moment.
fn check_tick(rt: &impl Abort, alloc: Global, line: &str, moment: u64) {
    let digits = digits_of(line).unwrap_or("");
    let front = format!(in alloc; "02{moment:016x}02").expect(rt, "out of memory");
    check(rt, line, digits.get(..front.len()), Some(front.as_str()));
}

// The first reading is the start, and each further one is the moment of a tick.
#[test]
fn the_ticks_of_a_journal_are_the_readings_of_the_clock(rt: HostRuntime) {
    let journal = ticks(&rt, rt.alloc());
    let mut moment: u64 = 0;
    for line in str::from_utf8(&journal).expect(&rt, "text").lines() {
        moment = moment.saturating_add(1);
        check_tick(&rt, rt.alloc(), line, moment);
    }
    assert!(rt; moment >= 2, "{moment} ticks");
}
