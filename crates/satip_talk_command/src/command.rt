//! `talk`: answers the input, and logs the outcome.

ghost use Rattle.std.specs.Prelude.{◌≡◌, ◌↔◌, ◌+◌, ◌-◌, ◌<◌, ◌≤◌};
ghost use Rattle.satip_base.specs.Streams.{Rose};
ghost use Rattle.satip_config.specs.Lines.{Says};
ghost use Rattle.satip_config.specs.Outcomes.{line_of, status_of};
ghost use Rattle.satip_talk_command.specs.Runs.{input_limit};
ghost use Rattle.satip_talk_command.specs.Ends.{TalkEnds};

use crate::answering::answer;
use satip_base::{Sink, Source};
use satip_config::Outcome;
use std::alloc::Global;

/// Answers the requests of one RTSP connection in order (RFC 2326, sections 9.1 and 10). The
/// requests are read from the input, and the replies go to the output. All memory is taken before
/// any input, and it always returns. Any outcome but `Done` is logged in a line on the errors sink.
pub fn talk<I: Source, O: Sink, E: Sink>(
    alloc: Global,
    input: &mut I,
    output: &mut O,
    errors: &mut E,
) -> Outcome
    // The outcome of the talk by its status, and its line.
    ensures ends { TalkEnds I.tells O.tells
        (I.feed input.old) (I.feed input.new)
        (O.drain output.old) (O.drain output.new)
        (status_of result) }
    ensures says { Says E.tells
        (E.drain errors.old) (E.drain errors.new)
        (line_of result) }

    // The causes of the faults, and a limit for the bytes taken of the input.
    ensures input_fault { result ≡ Outcome.InputFault
        → Rose (I.feed input.old).faults (I.feed input.new).faults }
    ensures output_fault { result ≡ Outcome.OutputFault
        → Rose (O.drain output.old).faults (O.drain output.new).faults }
    ensures too_long { (result ≡ Outcome.TooLong)
        ↔ (input_limit < (I.feed input.new).taken - (I.feed input.old).taken) }
    ensures limit { (I.feed input.new).taken ≤ (I.feed input.old).taken + input_limit + 1 }
{
    let outcome = answer(alloc, input, output);
    outcome.tell(errors);
    outcome
}
