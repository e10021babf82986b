//! Commands over a configuration and an input.

ghost use Rattle.std.specs.Prelude.{◌≡◌, ◌↔◌, ◌+◌, ◌-◌, ◌<◌, ◌≤◌, ℕ, List};
ghost use Rattle.satip_base.specs.Streams.{Rose};
ghost use Rattle.satip_config.specs.Configurations.{configuration_limit};
ghost use Rattle.satip_config.specs.declared.outcome.Outcome.{Outcome as Ending};
ghost use Rattle.satip_replay.specs.BatchCommands.{BatchRuns};
ghost use Rattle.satip_replay.specs.BatchStreams.{BatchStreams};
ghost use Rattle.satip_replay.specs.Replays.{script_limit};

use satip_base::{Sink, Source};
use satip_config::Outcome;
use std::alloc::Global;

/// A command that reads a configuration and then the whole input, and writes one result.
pub trait Batch {
    // What was done, by the outcome. The first three say of which streams the content is known: of
    // the configuration, the input and the output. The streams are those before and after.
    ghost outcome: { (config_tells in_tells out_tells : Type 0) → (o n : BatchStreams) → Ending
        → Type 0 };

    // The outcomes that the texts of the configuration and of the input allow.
    ghost allows: { (config_text text : List ℕ) → Ending → Type 0 };

    /// Runs the command over opened streams. Takes at most 1048577 bytes of the configuration and
    /// 67108865 of the input. It always returns.
    fn run<C: Source, I: Source, O: Sink>(
        &self,
        alloc: Global,
        config: &mut C,
        input: &mut I,
        output: &mut O,
    ) -> Outcome
        // What was done, and what holds of each command.
        ensures ends { outcome C.tells I.tells O.tells
            (record {
              config = C.feed config.old;
              input = I.feed input.old;
              output = O.drain output.old;
            })
            (record {
              config = C.feed config.new;
              input = I.feed input.new;
              output = O.drain output.new;
            })
            result }
        ensures runs { BatchRuns C.tells
            (record {
              config = C.feed config.old;
              input = I.feed input.old;
              output = O.drain output.old;
            })
            (record {
              config = C.feed config.new;
              input = I.feed input.new;
              output = O.drain output.new;
            })
            result }

        // How much is taken, and which outcomes the two texts allow if no source fails.
        ensures too_long { (result ≡ Outcome.TooLong)
            ↔ (script_limit < (I.feed input.new).taken - (I.feed input.old).taken) }
        ensures configuration_taken { (C.feed config.new).taken
            ≤ (C.feed config.old).taken + configuration_limit + 1 }
        ensures input_taken { (I.feed input.new).taken
            ≤ (I.feed input.old).taken + script_limit + 1 }
        ensures settled { C.tells → I.tells
            → (Rose (C.feed config.old).faults (C.feed config.new).faults → ⊥)
            → (Rose (I.feed input.old).faults (I.feed input.new).faults → ⊥)
            → allows (C.feed config.old).left (I.feed input.old).left result };
}
