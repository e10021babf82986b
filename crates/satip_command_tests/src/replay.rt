//! Replays over memory, and their ends.
ghost use Rattle.std.specs.Prelude.{◌≡◌, [], ◌∷◌, codes};
ghost use Rattle.satip_tune.specs.Configuration.{Configuration};
ghost use Rattle.satip_plain.specs.declared.events.Event.TheVariants.{Ask, Stop};
ghost use Rattle.satip_replay.specs.Replays.{replayed};

use crate::checks::{Parts, check, given};
use satip_config::{ConfigFault, ConfigKey, ConfigName, ConfigTable, Outcome};
use satip_fixtures::texts::{CONFIGURATION, repeated};
use satip_memory::{MemorySink, MemorySource};
use satip_replay::replay;
use std::alloc::Global;
use std::process::Abort;

// What is printed of short scripts, whatever the configuration.
#[tactic(auto, unfolding(satip_script::specs::Printed::plain_line, satip_script::specs::Printed::work_words))]
fn replays_are_printed()
    ensures none { (c : Configuration) → replayed c [] ≡ [] }
    ensures free_front { (c : Configuration) → replayed c (Ask 1 ∷ []) ≡ codes "nothing\n" }
    ensures stop { (c : Configuration) → replayed c (Stop ∷ Ask 1 ∷ [])
        ≡ codes "stopping\nstopping\n" }
{}

// A replay of a script, its end and what it writes. Its configuration has this number of line
// feeds, or is that of the fixtures. A put that fails passes five bytes.
#[derive(Clone, Copy)]
struct Row {
    name: &'static str,
    feeds: Option<usize>,
    script: Parts,
    failing_puts: &'static [u64],
    end: Outcome,
    output: Parts,
}

const ROWS: &[Row] = &[
    Row {
        name: "a configuration of 1048576 bytes",
        feeds: Some(1048576),
        script: &[(b"stop\n", 1)],
        failing_puts: &[],
        end: Outcome::Configuration(ConfigFault::Shape(ConfigKey {
            table: ConfigTable::Top,
            number: 0,
            name: ConfigName::Address,
        })),
        output: &[],
    },
    Row {
        name: "a configuration of 1048577 bytes",
        feeds: Some(1048577),
        script: &[(b"stop\n", 1)],
        failing_puts: &[],
        end: Outcome::Configuration(ConfigFault::Long),
        output: &[],
    },
    Row {
        name: "nothing is written before the whole script is checked",
        feeds: None,
        script: &[(b"tick 1\ntik 5", 1)],
        failing_puts: &[],
        end: Outcome::Script(2),
        output: &[],
    },
    Row {
        name: "an empty script puts nothing",
        feeds: None,
        script: &[],
        failing_puts: &[1],
        end: Outcome::Done,
        output: &[],
    },
    Row {
        name: "each event is printed",
        feeds: None,
        script: &[(b"ask 1\n", 10000)],
        failing_puts: &[],
        end: Outcome::Done,
        output: &[(b"nothing\n", 10000)],
    },
    // The first put has 65536 bytes.
    Row {
        name: "a fault of the output leaves a beginning",
        feeds: None,
        script: &[(b"ask 1\n", 10000)],
        failing_puts: &[2],
        end: Outcome::OutputFault,
        output: &[(b"nothing\n", 8192), (b"nothi", 1)],
    },
];

fn source_of(rt: &impl Abort, alloc: Global, parts: &[(&[u8], usize)]) -> MemorySource {
    let text = given(rt, repeated(alloc, parts));
    MemorySource::make(alloc, &text, &[], &[]).expect(rt, "out of memory")
}

fn config_source(rt: &impl Abort, alloc: Global, feeds: Option<usize>) -> MemorySource {
    match feeds {
        Some(count) => source_of(rt, alloc, &[(b"\n", count)]),
        None => source_of(rt, alloc, &[(CONFIGURATION.as_bytes(), 1)]),
    }
}

// Asserts the end of a replay, and what it writes.
fn check_replay(rt: &impl Abort, alloc: Global, row: &Row) {
    let mut config = config_source(rt, alloc, row.feeds);
    let mut script = source_of(rt, alloc, row.script);
    let mut output = MemorySink::make(alloc, row.failing_puts, 5).expect(rt, "out of memory");
    let end = replay(alloc, &mut config, &mut script, &mut output);
    let wanted = given(rt, repeated(alloc, row.output));
    let got = (end, output.sent());
    check(rt, row.name, got, (row.end, wanted.as_slice()));
}

fn check_replays(rt: &impl Abort, alloc: Global, rows: &[Row]) {
    for row in rows {
        check_replay(rt, alloc, row);
    }
}

#[test]
fn replays_end_as_their_rows_say(rt: HostRuntime) {
    check_replays(&rt, rt.alloc(), ROWS);
}
