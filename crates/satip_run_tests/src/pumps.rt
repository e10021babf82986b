//! Pumps of the first front end, which a SETUP tuned.
ghost use Rattle.std.specs.Prelude.{◌≡◌, false};

use crate::checks::check;
use crate::given::given;
use satip_base::{Entry, Out};
use satip_desk::PumpKit;
use satip_fixtures::packet_bytes;
use satip_fixtures::texts::repeated;
use satip_memory::{MemoryOutlet, MemoryPacer, MemoryStore};
use satip_plain::{Answer, Event, Work};
use satip_pump::{Batch, JobEnd, run_pump};
use satip_solo::Solo;
use satip_solo::setting::{ask, end, give, letters, set_up, solo};
use std::alloc::Global;
use std::process::Abort;
use std::sync::Wait;

type Kit = PumpKit<MemoryStore, MemoryOutlet, MemoryPacer>;

const TOLD: Answer = Answer::Work(Work::Tune { mux: 1, tune: 1 });

const STOPPING: Answer = Answer::Work(Work::Stopping);

// A kit with this recording of the first multiplex, whose starts of these numbers fail, and which
// gives it in takes of these sizes, of which these fail.
fn kit(
    rt: &impl Abort,
    alloc: Global,
    starts: &[u64],
    text: &[u8],
    takes: &[usize],
    failing: &[u64],
) -> Kit
    ensures free { result.outlet.held ≡ false }
{
    let Ok(outlet) = MemoryOutlet::make(alloc, &[]) else {
        panic!(rt; "out of memory");
    };
    let mut store = MemoryStore::make(alloc, starts).expect(rt, "out of memory");
    store
        .add(1, text, takes, failing)
        .expect(rt, "out of memory");
    PumpKit {
        store,
        outlet,
        pacer: MemoryPacer::new(),
    }
}

// A service whose call 0 was the SETUP.
fn tuned(rt: &impl Abort, alloc: Global, stop: u64) -> Solo {
    let mut out = Out::make(alloc).expect(rt, "out of memory");
    let mut solo = given(rt, solo(alloc, Some(stop)));
    let _status = given(rt, set_up(&mut solo, &mut out));
    solo
}

// Runs a pump over a service.
fn pump<R: Wait + Sync + Abort>(rt: &R, alloc: Global, solo: &mut Solo, kit: &mut Kit) -> JobEnd
    requires free { kit.old.outlet.held ≡ false }
{
    let mut out = Out::make(alloc).expect(rt, "out of memory");
    let mut batch = Batch::make(alloc).expect(rt, "out of memory");
    run_pump(rt, solo, 1, kit, &mut out, &mut batch)
}

// The answer of the entry at a place.
fn answer_at(solo: &Solo, place: usize) -> Option<Answer> {
    match solo.entries().get(place) {
        Some(entry) => Some(entry.answer),
        None => None,
    }
}

// A recording of the first multiplex with bytes before and behind its packets, whose starts and
// takes of these numbers fail, and which is given in takes of these sizes; the number of the call
// before which the Stop comes, and the kinds of all entries.
#[derive(Clone, Copy)]
struct Row {
    name: &'static str,
    before: &'static [u8],
    count: usize,
    behind: &'static [u8],
    starts: &'static [u64],
    takes: &'static [usize],
    failing: &'static [u64],
    stop: u64,
    kinds: &'static [u8],
}

const ROWS: &[Row] = &[
    Row {
        name: "bytes before the packets and a tail behind them",
        before: &[0, 1, 2, 3, 4],
        count: 2,
        behind: &[0x47; 100],
        starts: &[],
        takes: &[],
        failing: &[],
        stop: 5,
        kinds: b"RAPPESA",
    },
    Row {
        name: "a start that fails",
        before: &[],
        count: 3,
        behind: &[],
        starts: &[1],
        takes: &[],
        failing: &[],
        stop: 3,
        kinds: b"RAESA",
    },
    Row {
        name: "a take that fails",
        before: &[],
        count: 3,
        behind: &[],
        starts: &[],
        takes: &[188, 188],
        failing: &[2],
        stop: 4,
        kinds: b"RAPESA",
    },
];

// The recording of a row.
fn recording_of(rt: &impl Abort, alloc: Global, row: &Row) -> Vec<u8> {
    let packet = packet_bytes(16);
    let parts: &[(&[u8], usize)] = &[
        (row.before, 1),
        (packet.as_slice(), row.count),
        (row.behind, 1),
    ];
    given(rt, repeated(alloc, parts))
}

// Asserts that a pump was told to stop, with no source out and entries of the row's kinds.
fn check_stopped(rt: &impl Abort, alloc: Global, solo: &Solo, kit: &Kit, row: &Row) {
    let kinds = given(rt, letters(alloc, solo));
    check(rt, row.name, &kinds.as_slice(), &row.kinds);
    let last = answer_at(solo, kinds.len().saturating_sub(1));
    check(rt, row.name, &last, &Some(STOPPING));
    check(rt, row.name, &kit.store.lent(), &0);
}

// Runs a pump over the recording of a row.
fn check_row<R: Wait + Sync + Abort>(rt: &R, alloc: Global, row: &Row) {
    let text = recording_of(rt, alloc, row);
    let mut kit = kit(rt, alloc, row.starts, &text, row.takes, row.failing);
    let mut solo = tuned(rt, alloc, row.stop);
    check(
        rt,
        row.name,
        &pump(rt, alloc, &mut solo, &mut kit),
        &JobEnd::Stopped,
    );
    check_stopped(rt, alloc, &solo, &kit, row);
}

#[test]
fn recordings_end_where_they_end_or_fail(rt: HostRuntime) {
    for row in ROWS {
        check_row(&rt, rt.alloc(), row);
    }
}

// Whether two entries have the same caller, kind of event, answer, reply and number of datagrams.
fn are_alike(a: &Entry<Event, Answer, Out>, b: &Entry<Event, Answer, Out>) -> bool {
    a.caller == b.caller
        && a.answer == b.answer
        && a.out.reply() == b.out.reply()
        && a.out.count() == b.out.count()
        && are_alike_events(&a.event, &b.event)
}

fn are_alike_events(a: &Event, b: &Event) -> bool {
    match (a, b) {
        (Event::Packet { packet: first, .. }, Event::Packet { packet: second, .. }) => {
            first == second
        }
        (Event::Ask { front: first }, Event::Ask { front: second }) => first == second,
        (Event::Ended { tune: first, .. }, Event::Ended { tune: second, .. }) => first == second,
        (
            Event::Request { request: first, .. },
            Event::Request {
                request: second,
                ..
            },
        ) => { first == second }
        (Event::Stop, Event::Stop) => true,
        _ => false,
    }
}

// The events of a recording of so many packets as single calls.
fn give_singly(rt: &impl Abort, solo: &mut Solo, out: &mut Out, packets: u8) {
    let _answer = given(rt, ask(solo, out));
    for _ in 0..packets {
        let _answer = given(rt, give(solo, out));
    }
    let _answer = given(rt, end(solo, out));
    let _answer = given(rt, ask(solo, out));
}

// A service whose call 0 was the SETUP, and to which the packets were given singly.
fn singly(rt: &impl Abort, alloc: Global, packets: u8, stop: u64) -> Solo {
    let mut solo = tuned(rt, alloc, stop);
    let mut out = Out::make(alloc).expect(rt, "out of memory");
    give_singly(rt, &mut solo, &mut out, packets);
    solo
}

// Whether the entries of two services are alike.
fn have_like_entries(first: &Solo, second: &Solo) -> bool {
    for (a, b) in first.entries().iter().zip(second.entries()) {
        if !are_alike(a, b) {
            return false;
        }
    }
    first.entries().len() == second.entries().len()
}

// A recording of 130 packets, which a Stop before call 133 ends.
const LONG: Row = Row {
    name: "130 packets",
    before: &[],
    count: 130,
    behind: &[],
    starts: &[],
    takes: &[],
    failing: &[],
    stop: 133,
    kinds: b"",
};

// Runs a pump over the long recording. Asserts its end, and that it paused behind 64 and 128
// packets, and where the end of the recording was told to do nothing.
fn pump_long<R: Wait + Sync + Abort>(rt: &R, alloc: Global, solo: &mut Solo) {
    let text = recording_of(rt, alloc, &LONG);
    let mut kit = kit(rt, alloc, LONG.starts, &text, LONG.takes, LONG.failing);
    check(
        rt,
        LONG.name,
        &pump(rt, alloc, solo, &mut kit),
        &JobEnd::Stopped,
    );
    check(rt, "pauses", &kit.pacer.pauses(), &3);
}

#[test]
fn a_pump_pauses_between_bursts(rt: HostRuntime) {
    let alloc = rt.alloc();
    let mut solo = tuned(&rt, alloc, LONG.stop);
    pump_long(&rt, alloc, &mut solo);
    let other = singly(&rt, alloc, 130, LONG.stop);
    check(&rt, "first answer", &answer_at(&solo, 1), &Some(TOLD));
    assert!(rt; have_like_entries(&solo, &other));
}
