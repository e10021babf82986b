//! `replay`: checks a configuration and a script, then runs the script and prints the run.

ghost use Rattle.std.specs.Prelude.{◌≡◌, ◌↔◌, ◌+◌, ◌-◌, ◌<◌, ◌≤◌, Err, IfOk, IfErr};
ghost use Rattle.satip_base.specs.Streams.{Rose};
ghost use Rattle.satip_config.specs.Configurations.{configuration_limit};
ghost use Rattle.satip_replay.specs.Replays.{script_limit, HasScript};
ghost use Rattle.satip_replay.specs.Ends.{IsEndOf, ReplayOutcome, ScriptEnds};

use crate::running::run_script;
use satip_base::limits::INPUT;
use satip_base::{Sink, Source};
use satip_config::{Outcome, ReadFault, read_configuration, read_whole};
use satip_frame::Framer;
use satip_script::check_script;
use std::alloc::Global;

/// Reads a configuration and then the whole input as an event script, and checks every line. Only
/// then it runs the script from the moment 0 and writes the printed run. Takes at most 1048577
/// bytes of the configuration and 67108865 of the input. It always returns. For the formats see
/// docs/PROTOCOL.md, Configuration and Event scripts.
pub fn replay<C: Source, I: Source, O: Sink>(
    alloc: Global,
    config: &mut C,
    input: &mut I,
    output: &mut O,
) -> Outcome
    // What was done, by the outcome.
    ensures ends { ReplayOutcome C.tells I.tells O.tells
        (record {
          config = C.feed config.old;
          input = I.feed input.old;
          output = O.drain output.old;
        })
        (record {
          config = C.feed config.new;
          input = I.feed input.new;
          output = O.drain output.new;
        })
        result }

    // How much is taken, and which outcomes the two texts allow if no source fails.
    ensures too_long { (result ≡ Outcome.TooLong)
        ↔ (script_limit < (I.feed input.new).taken - (I.feed input.old).taken) }
    ensures configuration_taken { (C.feed config.new).taken
        ≤ (C.feed config.old).taken + configuration_limit + 1 }
    ensures input_taken { (I.feed input.new).taken ≤ (I.feed input.old).taken + script_limit + 1 }
    ensures settled { C.tells → I.tells
        → (Rose (C.feed config.old).faults (C.feed config.new).faults → ⊥)
        → (Rose (I.feed input.old).faults (I.feed input.new).faults → ⊥)
        → IsEndOf (C.feed config.old).left (I.feed input.old).left result }
{
    let configuration = match read_configuration(alloc, config) {
        Ok(configuration) => configuration,
        Err(end) => return Outcome::from(end),
    };
    let Ok(mut framer) = Framer::make(alloc) else {
        return Outcome::OutOfMemory;
    };
    match read_script(alloc, input, &mut framer) {
        Ok(script) => run_script(alloc, configuration, &script, &mut framer, output),
        Err(end) => end,
    }
}

// Reads the whole input, and checks each line of it.
fn read_script<I: Source>(
    alloc: Global,
    source: &mut I,
    framer: &mut Framer,
) -> Result<Vec<u8>, Outcome>
    ensures ok { IfOk result (λ text. HasScript I.tells
        (I.feed source.old) (I.feed source.new) text.items) }
    ensures fault { IfErr result (ScriptEnds I.tells
        (I.feed source.old) (I.feed source.new)) }
    ensures limit { (I.feed source.new).taken ≤ (I.feed source.old).taken + script_limit + 1 }
    ensures too_long { (result ≡ Err Outcome.TooLong)
        ↔ (script_limit < (I.feed source.new).taken - (I.feed source.old).taken) }
{
    let text = match read_whole(alloc, source, INPUT) {
        Ok(text) => text,
        Err(ReadFault::TooLong) => return Err(Outcome::TooLong),
        Err(ReadFault::Failed) => return Err(Outcome::InputFault),
        Err(ReadFault::OutOfMemory) => return Err(Outcome::OutOfMemory),
    };
    match check_script(&text, framer) {
        None => Ok(text),
        Some(number) => Err(Outcome::Script(number)),
    }
}
