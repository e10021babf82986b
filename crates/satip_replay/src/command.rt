//! Commands over a configuration that the desk opens.

ghost use Rattle.std.specs.Prelude.{◌≡◌, ◌↔◌, ◌⊎◌, ◌+◌, ◌-◌, ◌<◌, ◌≤◌, IsSomeAnd, option_map};
ghost use Rattle.satip_base.specs.Streams.{Rose};
ghost use Rattle.satip_replay.specs.Replays.{script_limit};
ghost use Rattle.satip_config.specs.Lines.{Says};
ghost use Rattle.satip_config.specs.Outcomes.{line_of, status_of};
ghost use Rattle.satip_replay.specs.BatchCommands.{BatchEnds, batch_command};
ghost use Rattle.satip_replay.specs.Ends.{ReplayOutcome, IsEndOf};

use crate::batches::Batch;
use crate::replaying::replay;
use satip_base::{Failed, Sink, Source, Text};
use satip_config::Outcome;
use satip_desk::Desk;
use std::alloc::Global;

/// The command `replay`: runs the script on the input, and writes the printed run.
#[derive(Clone, Copy)]
pub struct ReplayCommand;

impl Batch for ReplayCommand {
    ghost outcome = { ReplayOutcome };

    ghost allows = { IsEndOf };

    fn run<C: Source, I: Source, O: Sink>(
        &self,
        alloc: Global,
        config: &mut C,
        input: &mut I,
        output: &mut O,
    ) -> Outcome {
        replay(alloc, config, input, output)
    }
}

/// The outcome of a command, and the configuration that the desk gave for it, as far as it was
/// read.
pub struct Batched<K: Desk> {
    /// The outcome of the command.
    pub outcome: Outcome,
    /// The configuration, if the desk gave one.
    pub config: Option<K::Config>,
}

/// Runs a command on the input by the configuration of this name. If the desk doesn't open the
/// configuration, nothing is taken of the input, and the outcome is `InputFault`. Any outcome but
/// `Done` is logged in a line on the errors sink.
pub fn run_batch<B: Batch, K: Desk, I: Source, O: Sink, E: Sink>(
    command: &B,
    alloc: Global,
    name: &Text,
    input: &mut I,
    output: &mut O,
    errors: &mut E,
    desk: &mut K,
) -> Batched<K>
    ensures texts { (K.desk desk.new).text ≡ (K.desk desk.old).text }
    ensures kits { (K.desk desk.new).given ≡ (K.desk desk.old).given }
    ensures handed { (K.desk desk.new).handed ≡ (K.desk desk.old).handed }
    ensures journaled { (K.desk desk.new).journaled ≡ (K.desk desk.old).journaled }

    // The outcome of the command by its status, and its line.
    ensures ends { BatchEnds
        (batch_command (record {
          input = I.tells;
          output = O.tells;
          errors = E.tells;
          config = K.Config.tells;
          conn = K.Doors.Conn.tells;
          outlet = K.Outlet.tells;
          journal = K.Journal.tells;
          wire = K.Wire.tells;
          inlet = K.Inlet.tells;
        }) B.outcome B.allows)
        name.now (K.desk desk.old) (K.desk desk.new)
        (record {
          input = I.feed input.old;
          output = O.drain output.old;
          errors = E.drain errors.old;
        })
        (record {
          input = I.feed input.new;
          output = O.drain output.new;
          errors = E.drain errors.new;
        })
        (option_map K.Config.feed result.config) (status_of result.outcome) }
    ensures says { Says E.tells
        (E.drain errors.old) (E.drain errors.new)
        (line_of result.outcome) }

    // The causes of the faults, and a limit for the bytes taken of the input.
    ensures input_fault { result.outcome ≡ Outcome.InputFault
        → Rose (K.desk desk.old).faults (K.desk desk.new).faults
        ⊎ IsSomeAnd result.config (λ source. Rose 0 (K.Config.feed source).faults)
        ⊎ Rose (I.feed input.old).faults (I.feed input.new).faults }
    ensures output_fault { result.outcome ≡ Outcome.OutputFault
        → Rose (O.drain output.old).faults (O.drain output.new).faults }
    ensures too_long { (result.outcome ≡ Outcome.TooLong)
        ↔ (script_limit < (I.feed input.new).taken - (I.feed input.old).taken) }
    ensures limit { (I.feed input.new).taken ≤ (I.feed input.old).taken + script_limit + 1 }
{
    match desk.config(name) {
        Ok(mut config) => {
            let outcome = command.run(alloc, &mut config, input, output);
            outcome.tell(errors);
            Batched {
                outcome,
                config: Some(config),
            }
        }
        Err(Failed) => {
            Outcome::InputFault.tell(errors);
            Batched {
                outcome: Outcome::InputFault,
                config: None,
            }
        }
    }
}
