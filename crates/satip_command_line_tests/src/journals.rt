//! Journals of megabytes.

use crate::checks::check_above;
use crate::runs::{check_ran, run_by};
use satip_fixtures::texts::CONFIGURATION;
use std::alloc::Global;
use std::process::Abort;

const ONE_FRONT_END: &str =
    "address = \"192.168.1.10\"\n[[frontend]]\nsources = [1]\nsystems = [\"dvbs\"]\n";

// A journal of ticks, each at the moment that its place has as a number, and the verdict on it.
#[derive(Clone, Copy)]
struct Ticks {
    name: &'static str,
    // The text of the configuration.
    text: &'static str,
    caller: u8,
    count: u64,
    // The place of a line is this much above that of the line before it. It goes on from 0 at the
    // count.
    step: u64,
    // The number, from 0, of the line that the start line follows.
    start: u64,
    // The place of the entry with another answer; the count for none.
    wrong: u64,
    output: &'static [u8],
}

impl Ticks {
    // Returns the place of the next line.
    fn next(&self, place: u64) -> u64 {
        let next = place.saturating_add(self.step);
        if next >= self.count {
            next - self.count
        } else {
            next
        }
    }
}

// Appends the line of an entry.
fn push_entry(rt: &impl Abort, text: &mut String, ticks: &Ticks, place: u64) {
    let beat = if place == ticks.wrong { "01" } else { "00" };
    let caller = ticks.caller;
    writeln!(
        text,
        "entry {place} {caller} 02{place:016x}02{beat}000000000000"
    )
    .expect(rt, "out of memory");
}

// Returns the lines of a journal.
fn text_of(rt: &impl Abort, alloc: Global, ticks: &Ticks) -> String {
    let mut text = String::new(alloc);
    let mut place: u64 = 0;
    for line in 0..ticks.count {
        push_entry(rt, &mut text, ticks, place);
        if line == ticks.start {
            text.push_str("start 0\n").expect(rt, "out of memory");
        }
        place = ticks.next(place);
    }
    text
}

// Asserts that a journal has more than two million bytes, and the verdict on it.
fn check_ticks(rt: &impl Abort, alloc: Global, ticks: &Ticks) {
    let text = text_of(rt, alloc, ticks);
    check_above(rt, ticks.name, text.len(), 2000000);
    let ran = run_by(rt, alloc, "audit", ticks.text, text.as_bytes());
    check_ran(rt, ticks.name, &ran, 0, true, ticks.output, b"");
}

// Asserts it of each journal.
fn check_journals(rt: &impl Abort, alloc: Global, rows: &[Ticks]) {
    for ticks in rows {
        check_ticks(rt, alloc, ticks);
    }
}

// The lines are in the order of their places.
const IN_ORDER: Ticks = Ticks {
    name: "60000 ticks",
    text: ONE_FRONT_END,
    caller: 0,
    count: 60000,
    step: 1,
    start: 59999,
    wrong: 60000,
    output: b"yes 60000\n",
};

// In order, and shuffled: 60000 isn't divided by the prime 7919.
const ONE_CALLER: &[Ticks] = &[
    IN_ORDER,
    Ticks {
        name: "60000 ticks, shuffled",
        step: 7919,
        ..IN_ORDER
    },
];

#[test]
fn a_journal_of_megabytes_is_judged(rt: HostRuntime) {
    check_journals(&rt, rt.alloc(), ONE_CALLER);
}

// The lines are shuffled, and the start line is in their middle.
const RIGHT: Ticks = Ticks {
    name: "right",
    text: CONFIGURATION,
    caller: 3,
    count: 50000,
    step: 7919,
    start: 24999,
    wrong: 50000,
    output: b"yes 50000\n",
};

const RIGHT_AND_WRONG: &[Ticks] = &[
    RIGHT,
    Ticks {
        name: "wrong",
        wrong: 49999,
        output: b"no differs 49999\n",
        ..RIGHT
    },
];

#[test]
fn a_long_journal_in_another_order_is_judged(rt: HostRuntime) {
    check_journals(&rt, rt.alloc(), RIGHT_AND_WRONG);
}
