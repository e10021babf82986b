//! Services that end with a fault, or out of memory.

use crate::kits::{BARE, ONE, Plan};
use crate::runs::{
    Back, CONFIG_ALONE, NOTHING, Parts, Row, check, run_row, run_service, run_services,
};
use satip_fixtures::texts::OPTIONS;

const USAGE: &[u8] =
    b"usage: satip talk | replay CONFIG | serve CONFIG ACCEPTS | stress SEED COUNT \
    | tunnel CONFIG ACCEPTS | journal CONFIG ACCEPTS | audit CONFIG | record ADDRESS QUERY COUNT\n";

// Words that name no service: an empty name, a word less, a word more, and numbers that aren't
// read.
const WRONG: &[(&str, &[&str])] = &[
    ("no name", &["serve", "", "1"]),
    ("no number", &["journal", "c1.toml"]),
    ("a word more", &["tunnel", "c1.toml", "1", "1"]),
    ("a large number", &["serve", "c1.toml", "4294967296"]),
    ("a negative number", &["tunnel", "c1.toml", "-1"]),
    ("another case", &["Journal", "c1.toml", "1"]),
];

// A service by c1.toml that ends before its jobs begin, with the doors' fault.
const UNBEGUN: Row = Row {
    name: "no kits",
    plan: BARE,
    config: "c1.toml",
    accepts: "1",
    status: 7,
    errors: b"doors fault\n",
    parts: Parts::These(CONFIG_ALONE),
    served: &[],
};

const FAULTY_LINE: &Row = &Row {
    name: "a faulty command line",
    plan: ONE,
    status: 2,
    errors: USAGE,
    parts: Parts::These(NOTHING),
    ..UNBEGUN
};

#[test]
fn other_words_are_a_faulty_command_line(rt: HostRuntime) {
    for (name, words) in WRONG {
        drop(run_row(&rt, rt.alloc(), name, words, FAULTY_LINE));
    }
}

const WRONG_CONFIG: &[u8] = b"timeout = 5\n\
    address = \"192.168.1.10\"\n\
    workers = 1\n\
    [[frontend]]\n\
    sources = [1]\n\
    systems = [\"dvbs\"]\n";

// Services whose jobs don't begin, and services whose doors fail.
const FAULTS: &[Row] = &[
    Row {
        name: "a fault of the configuration",
        plan: Plan {
            config: WRONG_CONFIG,
            ..ONE
        },
        status: 3,
        errors: b"configuration: value of timeout\n",
        ..UNBEGUN
    },
    Row {
        name: "a configuration that is not there",
        plan: ONE,
        config: "c2.toml",
        status: 5,
        errors: b"input fault\n",
        parts: Parts::These(NOTHING),
        ..UNBEGUN
    },
    Row {
        name: "a configuration that fails",
        plan: Plan {
            second: true,
            ..ONE
        },
        config: "c2.toml",
        status: 5,
        errors: b"input fault\n",
        ..UNBEGUN
    },
    // A recording, a port or an address that isn't available: the desk gives no kits.
    UNBEGUN,
    Row {
        name: "a desk out of memory",
        plan: Plan {
            refuses: true,
            ..BARE
        },
        status: 70,
        errors: b"out of memory\n",
        ..UNBEGUN
    },
    Row {
        name: "doors that fail at the second look, after a connection was served",
        plan: Plan {
            accepts: 2,
            connections: &[&[OPTIONS], &[OPTIONS]],
            failing: &[2],
            ..ONE
        },
        accepts: "2",
        parts: Parts::OfJobs,
        served: &[1],
        ..UNBEGUN
    },
    Row {
        name: "doors that fail at the first look",
        plan: Plan {
            failing: &[1],
            ..ONE
        },
        parts: Parts::OfJobs,
        served: &[0],
        ..UNBEGUN
    },
];

#[test]
fn each_fault_has_its_status(rt: HostRuntime) {
    run_services(&rt, rt.alloc(), FAULTS);
}

// The worker's first put fails.
const FAILING_JOURNAL: &Row = &Row {
    name: "the worker's first put",
    plan: Plan {
        failing_job: 1,
        failing_put: 1,
        ..ONE
    },
    status: 6,
    errors: b"output fault\n",
    parts: Parts::OfJobs,
    served: &[1],
    ..UNBEGUN
};

#[test]
fn a_journal_that_fails_has_status_6(rt: HostRuntime) {
    let ran = run_service(&rt, rt.alloc(), "journal", FAILING_JOURNAL);
    let start: &[u8] = b"start 1000\nentry ";
    let program = ran.journal(0).get(..start.len());
    check(&rt, "the program's journal", program, Some(start));
    check(
        &rt,
        "the worker's journal",
        ran.journal(1),
        b"entry".as_slice(),
    );
}

// One journal less than there are jobs.
const THREE_JOURNALS: &Row = &Row {
    name: "three journals",
    plan: Plan { journals: 3, ..ONE },
    status: 6,
    errors: b"output fault\n",
    parts: Parts::These(Back {
        unused: true,
        journals: 3,
        ..CONFIG_ALONE
    }),
    ..UNBEGUN
};

#[test]
fn without_a_journal_for_each_job_none_begins(rt: HostRuntime) {
    let ran = run_service(&rt, rt.alloc(), "journal", THREE_JOURNALS);
    for (name, job) in [("program", 0), ("worker", 1), ("pump", 2)] {
        check(&rt, name, ran.journal(job), b"".as_slice());
    }
}
