//! `audit`: reads a configuration and journals as a whole, and judges the journals.

ghost use Rattle.std.specs.Prelude.{◌≡◌, ◌↔◌, ◌+◌, ◌-◌, ◌<◌, ◌≤◌, Err, IfOk, IfErr};
ghost use Rattle.satip_base.specs.Streams.{Rose};
ghost use Rattle.satip_config.specs.Reading.{EndsWhole};
ghost use Rattle.satip_config.specs.Configurations.{configuration_limit};
ghost use Rattle.satip_replay.specs.Replays.{script_limit};
ghost use Rattle.satip_audit.specs.Printed.{verdict_text};
ghost use Rattle.satip_audit.specs.Ends.{AuditOutcome, InputEnds, IsEndOf, WriteEnds};

use crate::journals::JournalFault;
use crate::judging::verdict;
use crate::printing::print_verdict;
use crate::verdicts::Verdict;
use satip_base::limits::INPUT;
use satip_base::{Put, Sink, Source};
use satip_config::{Outcome, ReadFault, read_configuration, read_whole};
use std::alloc::Global;

/// Reads a configuration and then the whole input as journals, judges them, and writes the verdict
/// in one line. Takes at most 1048577 bytes of the configuration and 67108865 of the input. It
/// always returns. For the formats see docs/PROTOCOL.md, Configuration, and Journals and verdicts.
pub fn audit<C: Source, I: Source, O: Sink>(
    alloc: Global,
    config: &mut C,
    input: &mut I,
    output: &mut O,
) -> Outcome
    // What was done, by the outcome.
    ensures ends { AuditOutcome C.tells I.tells O.tells
        (record {
          config = C.feed config.old;
          input = I.feed input.old;
          output = O.drain output.old;
        })
        (record {
          config = C.feed config.new;
          input = I.feed input.new;
          output = O.drain output.new;
        })
        result }

    // How much is taken, and which outcomes the two texts allow if no source fails.
    ensures too_long { (result ≡ Outcome.TooLong)
        ↔ (script_limit < (I.feed input.new).taken - (I.feed input.old).taken) }
    ensures configuration_taken { (C.feed config.new).taken
        ≤ (C.feed config.old).taken + configuration_limit + 1 }
    ensures input_taken { (I.feed input.new).taken ≤ (I.feed input.old).taken + script_limit + 1 }
    ensures settled { C.tells → I.tells
        → (Rose (C.feed config.old).faults (C.feed config.new).faults → ⊥)
        → (Rose (I.feed input.old).faults (I.feed input.new).faults → ⊥)
        → IsEndOf (C.feed config.old).left (I.feed input.old).left result }
{
    let configuration = match read_configuration(alloc, config) {
        Ok(configuration) => configuration,
        Err(end) => return Outcome::from(end),
    };
    let mut text = match read_journals(alloc, input) {
        Ok(text) => text,
        Err(end) => return end,
    };
    match verdict(alloc, configuration, &mut text) {
        Ok(verdict) => write_verdict(verdict, output),
        Err(JournalFault::WrongLine(number)) => Outcome::Journals(number),
        Err(JournalFault::OutOfMemory) => Outcome::OutOfMemory,
    }
}

// Reads the whole input.
fn read_journals<I: Source>(alloc: Global, source: &mut I) -> Result<Vec<u8>, Outcome>
    ensures ok { IfOk result (λ text. EndsWhole I.tells
        (I.feed source.old) (I.feed source.new) script_limit text.items) }
    ensures fault { IfErr result (InputEnds I.tells
        (I.feed source.old) (I.feed source.new)) }
    ensures limit { (I.feed source.new).taken ≤ (I.feed source.old).taken + script_limit + 1 }
    ensures too_long { (result ≡ Err Outcome.TooLong)
        ↔ (script_limit < (I.feed source.new).taken - (I.feed source.old).taken) }
{
    match read_whole(alloc, source, INPUT) {
        Ok(text) => Ok(text),
        Err(ReadFault::TooLong) => Err(Outcome::TooLong),
        Err(ReadFault::Failed) => Err(Outcome::InputFault),
        Err(ReadFault::OutOfMemory) => Err(Outcome::OutOfMemory),
    }
}

// Writes a verdict in one line.
fn write_verdict<O: Sink>(verdict: Verdict, output: &mut O) -> Outcome
    ensures ends { WriteEnds O.tells
        (O.drain output.old) (O.drain output.new)
        (verdict_text verdict) result }
{
    match output.put(print_verdict(verdict).bytes()) {
        Put::Whole => Outcome::Done,
        Put::Failed => Outcome::OutputFault,
    }
}
