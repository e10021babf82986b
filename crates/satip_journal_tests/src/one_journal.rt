//! The lines of one caller's journal.

use crate::checks::{check, check_least};
use crate::judging::judged;
use crate::runs::{Case, Lots, Step, run_case};
use satip_journal_serve::Verdict;
use satip_plain::{Answer, Beat, Work};
use std::alloc::Global;
use std::process::Abort;
use std::sync::Wait;

const ASK: Step = Step::Ask(Answer::Work(Work::Nothing));

const ASK_STOPPED: Step = Step::Ask(Answer::Work(Work::Stopping));

const STOP: Step = Step::Stop(Answer::Beat(Beat::Stopping));

// A journal of job 0, without a step.
const EMPTY: Case = Case {
    name: "no step",
    job: 0,
    failing: &[],
    steps: &[],
    after: &[],
};

// Cases, and the bytes of their journals.
const CASES: &[(Case, &[u8])] = &[
    (
        Case {
            name: "a journal has the places of its own entries",
            job: 7,
            steps: &[ASK],
            after: &[ASK_STOPPED],
            ..EMPTY
        },
        b"entry 0 7 0500010301000000000000\nentry 2 7 0500010302000000000000\n",
    ),
    (
        Case {
            name: "a stop is one line",
            steps: &[STOP],
            ..EMPTY
        },
        b"entry 0 0 080201000000000000\n",
    ),
    (
        Case {
            name: "nothing is put behind a first put that fails",
            failing: &[1],
            steps: &[ASK, STOP],
            ..EMPTY
        },
        b"entry ",
    ),
    (
        Case {
            name: "a second put that fails leaves its beginning",
            failing: &[2],
            steps: &[ASK, STOP],
            ..EMPTY
        },
        b"entry 0 0 0500010301000000000000\nentry ",
    ),
    (
        Case {
            name: "each event of a burst has a line",
            job: 3,
            steps: &[Step::Burst(Lots {
                bursts: 1,
                questions: 2,
                left: 0,
            })],
            ..EMPTY
        },
        b"entry 0 3 0500010301000000000000\nentry 1 3 0500010301000000000000\n",
    ),
];

// Runs each case, and asserts the bytes of its journal.
fn check_cases<R: Wait + Sync + Abort>(rt: &R, alloc: Global, cases: &[(Case, &[u8])]) {
    for (case, text) in cases {
        let journal = run_case(rt, alloc, case);
        check(rt, case.name, journal.sink().sent(), *text);
    }
}

#[test]
fn a_journal_has_the_lines_of_its_entries(rt: HostRuntime) {
    check_cases(&rt, rt.alloc(), CASES);
}

const LONG_LOT: &Case = &Case {
    name: "a lot of 70 questions",
    job: 3,
    steps: &[Step::Burst(Lots {
        bursts: 1,
        questions: 70,
        left: 6,
    })],
    ..EMPTY
};

#[test]
fn a_burst_has_64_events_at_most(rt: HostRuntime) {
    let journal = run_case(&rt, rt.alloc(), LONG_LOT);
    check(&rt, "bytes", journal.sink().sent().len(), 10 * 33 + 54 * 34);
}

// Bursts of 64 questions, whose lines have more than four megabytes.
const MANY_BURSTS: &Case = &Case {
    name: "2048 bursts",
    steps: &[Step::Burst(Lots {
        bursts: 2048,
        questions: 64,
        left: 0,
    })],
    ..EMPTY
};

// Returns the start line and a journal.
fn with_start(rt: &impl Abort, alloc: Global, journal: &[u8]) -> Vec<u8> {
    let start: &[u8] = b"start 1000\n";
    let mut text = Vec::from_slice(alloc, start).expect(rt, "out of memory");
    text.extend_from_slice(journal).expect(rt, "out of memory");
    text
}

#[test]
fn a_journal_of_some_megabytes_is_judged_yes(rt: HostRuntime) {
    let journal = run_case(&rt, rt.alloc(), MANY_BURSTS);
    let mut text = with_start(&rt, rt.alloc(), journal.sink().sent());
    check_least(&rt, "bytes", text.len() as u64, 4_000_001);
    let said = judged(&rt, rt.alloc(), 1, 8, &mut text);
    check(&rt, "verdict", said, Verdict::Yes(131_072));
}
