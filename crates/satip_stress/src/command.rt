//! `stress`: runs and counts generated events, and logs the outcome.

ghost use Rattle.std.specs.Prelude.{◌≡◌, ◌≤◌};
ghost use Rattle.satip_base.specs.Streams.{Feed, Rose};
ghost use Rattle.satip_config.specs.Lines.{Says};
ghost use Rattle.satip_config.specs.Outcomes.{line_of, status_of};
ghost use Rattle.satip_stress.specs.CommandEnds.{StressEnds};

use crate::stressing::stress;
use satip_base::Sink;
use satip_config::Outcome;
use std::alloc::Global;

/// Runs generated events on a private server and writes six counts. Any outcome but `Done` is
/// logged in a line on the errors sink.
pub fn stress_by<O: Sink, E: Sink>(
    alloc: Global,
    seed: u64,
    count: u32,
    output: &mut O,
    errors: &mut E,
) -> Outcome
    requires few { count ≤ 1000000 }
    // The outcome of the run by its status, for any input, and its line.
    ensures ends { (i : Feed) → StressEnds O.tells seed count i i
        (O.drain output.old) (O.drain output.new)
        (status_of result) }
    ensures says { Says E.tells
        (E.drain errors.old) (E.drain errors.new)
        (line_of result) }
    ensures output_fault { result ≡ Outcome.OutputFault
        → Rose (O.drain output.old).faults (O.drain output.new).faults }
{
    let outcome = stress(alloc, seed, count, output);
    outcome.tell(errors);
    outcome
}
