//! Services whose connections are served to their ends.

use crate::kits::{Kits, ONE, Plan, TWO_WORKERS};
use crate::runs::{Parts, Row, run_service, run_services};
use satip_fixtures::texts::OPTIONS;

const SERVED: Row = Row {
    name: "one connection",
    plan: ONE,
    config: "c1.toml",
    accepts: "1",
    status: 0,
    errors: b"",
    parts: Parts::OfJobs,
    served: &[1],
};

// Without a limit the doors end once no further connection comes.
const WITHOUT_LIMIT: Row = Row {
    name: "three connections without a limit",
    plan: Plan {
        accepts: 0,
        connections: &[&[OPTIONS], &[OPTIONS], &[OPTIONS]],
        ..ONE
    },
    accepts: "0",
    served: &[3],
    ..SERVED
};

const BY_EACH_SERVICE: &[Row] = &[SERVED, WITHOUT_LIMIT];

#[test]
fn connections_are_served_and_handed_back(rt: HostRuntime) {
    run_services(&rt, rt.alloc(), BY_EACH_SERVICE);
}

// A report of a client to channel 1, which is passed over.
const REPORT: &[u8] = &[0x24, 0x01, 0x00, 0x04, 0x00, 0x00, 0x00, 0x00];

const REPORTED: Row = Row {
    name: "a report, and one message after it",
    plan: Plan {
        connections: &[&[REPORT, OPTIONS]],
        ..ONE
    },
    ..SERVED
};

const BY_TWO: Row = Row {
    name: "two workers",
    plan: Plan {
        config: TWO_WORKERS,
        kits: Kits::ForTwo,
        journals: 0,
        ..ONE
    },
    served: &[1, 1],
    ..SERVED
};

const BY_ONE_SERVICE: &[(&str, Row)] = &[("tunnel", REPORTED), ("serve", BY_TWO)];

#[test]
fn reports_are_passed_over_and_two_workers_serve(rt: HostRuntime) {
    for (service, row) in BY_ONE_SERVICE {
        drop(run_service(&rt, rt.alloc(), service, row));
    }
}
