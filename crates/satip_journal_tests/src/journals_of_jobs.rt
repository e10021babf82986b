//! The journals of a program, its workers and a ticker.

use crate::checks::{check, check_least};
use crate::judging::judged;
use crate::kits::MemoryJournal;
use crate::serving::{Plan, journals_of};
use satip_jobs::ServeEnd;
use satip_journal_serve::Verdict;
use std::alloc::Global;
use std::process::Abort;

// A serve to the end.
const SERVED: Plan = Plan {
    workers: 1,
    journals: 3,
    failing_put: 0,
    end: Some(ServeEnd::Served),
    failed: false,
};

const ONE: &Plan = &Plan {
    workers: 1,
    ..SERVED
};

const EIGHT: &Plan = &Plan {
    workers: 8,
    journals: 10,
    ..SERVED
};

const TOO_FEW: &Plan = &Plan {
    journals: 2,
    end: None,
    failed: true,
    ..SERVED
};

const FAILING: &Plan = &Plan {
    failing_put: 1,
    failed: true,
    ..SERVED
};

// Returns the bytes of a job's journal.
fn journal_of(sinks: &[MemoryJournal], job: usize) -> &[u8] {
    match sinks.get(job) {
        Some(journal) => journal.sink().sent(),
        None => b"none",
    }
}

// Returns the journals one after another, the last one first.
fn backwards(rt: &impl Abort, alloc: Global, sinks: &[MemoryJournal]) -> Vec<u8> {
    let mut text = Vec::new(alloc);
    for journal in sinks.iter().rev() {
        text.extend_from_slice(journal.sink().sent())
            .expect(rt, "out of memory");
    }
    text
}

// Returns the lines of all journals.
fn lines_of<'a>(rt: &impl Abort, alloc: Global, sinks: &'a [MemoryJournal]) -> Vec<&'a str> {
    let mut lines = Vec::new(alloc);
    for journal in sinks {
        let text = str::from_utf8(journal.sink().sent()).expect(rt, "text");
        for line in text.lines() {
            lines.push(line).expect(rt, "out of memory");
        }
    }
    lines
}

// Returns lines one after another, the last one first.
fn lines_backwards(rt: &impl Abort, alloc: Global, lines: &[&str]) -> Vec<u8> {
    let mut text = Vec::new(alloc);
    for line in lines.iter().rev() {
        text.extend_from_slice(line.as_bytes())
            .expect(rt, "out of memory");
        text.push(b'\n').expect(rt, "out of memory");
    }
    text
}

// Counts the lines of a text.
fn count_lines(text: &[u8]) -> u64 {
    let mut count: u64 = 0;
    for byte in text {
        if *byte == b'\n' {
            count = count.saturating_add(1);
        }
    }
    count
}

// Asserts that journals have at least `least` lines, and that all but the start line are entries of
// one history. Their server has this number of workers.
fn check_history(rt: &impl Abort, alloc: Global, workers: u16, text: &mut [u8], least: u64) {
    let lines = count_lines(text);
    check_least(rt, "lines", lines, least);
    let said = judged(rt, alloc, 0, workers, text);
    check(rt, "verdict", said, Verdict::Yes(lines.saturating_sub(1)));
}

// Asserts that a journal begins with this text.
fn check_front<'a>(rt: &impl Abort, name: &str, journal: &'a [u8], front: &'a [u8]) {
    check(rt, name, journal.get(..front.len()), Some(front));
}

#[test]
fn the_programs_journal_begins_with_the_start(rt: HostRuntime) {
    let sinks = journals_of(&rt, rt.alloc(), ONE);
    check_front(&rt, "job 0", journal_of(&sinks, 0), b"start 1000\nentry ");
}

#[test]
fn the_journals_of_all_jobs_are_one_history(rt: HostRuntime) {
    let sinks = journals_of(&rt, rt.alloc(), ONE);
    let mut text = backwards(&rt, rt.alloc(), &sinks);
    check_history(&rt, rt.alloc(), 1, &mut text, 4);
}

#[test]
fn the_lines_of_ten_journals_in_another_order_are_one_history(rt: HostRuntime) {
    let sinks = journals_of(&rt, rt.alloc(), EIGHT);
    let lines = lines_of(&rt, rt.alloc(), &sinks);
    let mut text = lines_backwards(&rt, rt.alloc(), &lines);
    check_history(&rt, rt.alloc(), 8, &mut text, 11);
}

// Returns the number of the job on the line of an entry, and None on another line.
fn job_on(line: &str) -> Option<&str> {
    let (word, rest) = line.split_once(' ')?;
    if word != "entry" {
        return None;
    }
    let (_place, rest) = rest.split_once(' ')?;
    let (job, _record) = rest.split_once(' ')?;
    Some(job)
}

// Asserts that a line of a job's journal has its number, or is the start line of job 0.
fn check_line<'a>(rt: &impl Abort, job: usize, number: &'a str, line: &'a str) {
    match job_on(line) {
        Some(found) => check(rt, line, (job, found), (job, number)),
        None => check(rt, line, (job, line), (0, "start 1000")),
    }
}

// Asserts that a journal is that of a job.
fn check_journal(rt: &impl Abort, alloc: Global, job: usize, journal: &MemoryJournal) {
    check(rt, "number", journal.job(), job as u64);
    let number = format!(in alloc; "{job}").expect(rt, "out of memory");
    let text = str::from_utf8(journal.sink().sent()).expect(rt, "text");
    for line in text.lines() {
        check_line(rt, job, number.as_str(), line);
    }
}

// Asserts that each journal is that of its job.
fn check_journals(rt: &impl Abort, alloc: Global, sinks: &[MemoryJournal]) {
    for (job, journal) in sinks.iter().enumerate() {
        check_journal(rt, alloc, job, journal);
    }
}

#[test]
fn each_job_has_its_own_journal(rt: HostRuntime) {
    check_journals(&rt, rt.alloc(), &journals_of(&rt, rt.alloc(), EIGHT));
}

#[test]
fn without_all_journals_no_job_begins(rt: HostRuntime) {
    let _sinks = journals_of(&rt, rt.alloc(), TOO_FEW);
}

#[test]
fn a_journal_that_fails_ends_there_and_the_jobs_go_on(rt: HostRuntime) {
    let sinks = journals_of(&rt, rt.alloc(), FAILING);
    check(&rt, "job 0", journal_of(&sinks, 0), b"start".as_slice());
    check_front(&rt, "job 1", journal_of(&sinks, 1), b"entry ");
    check_front(&rt, "job 2", journal_of(&sinks, 2), b"entry ");
}
