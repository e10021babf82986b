//! Takes the bytes of the input and answers them, piece by piece.

ghost use Rattle.std.specs.Prelude.{◌≡◌, ◌<◌, ◌≤◌, ◌+◌, []};
ghost use Rattle.satip_frame.specs.Held.{new_framer};
ghost use Rattle.satip_talk_command.specs.Talking.{HasAnswered};
ghost use Rattle.satip_talk_command.specs.Runs.{TalkRuns, input_limit};

use crate::conversation::{Conversation, Heard};
use satip_base::limits::{INPUT, PIECE};
use satip_base::{Sink, Source, Taken};
use satip_config::{Outcome, take_some};
use std::alloc::Global;

const LIMIT: u64 = INPUT as u64;

/// Answers the input until it ends, a closing reply was sent, or something fails. All memory is
/// taken before any input.
pub(crate) fn answer<I: Source, O: Sink>(alloc: Global, input: &mut I, output: &mut O) -> Outcome
    ensures ends { TalkRuns I.tells O.tells
        (I.feed input.old) (I.feed input.new)
        (O.drain output.old) (O.drain output.new)
        result }
{
    match Conversation::make(alloc) {
        Ok(mut conversation) => converse(&mut conversation, input, output),
        Err(_) => Outcome::OutOfMemory,
    }
}

fn converse<I: Source, O: Sink>(
    conversation: &mut Conversation,
    input: &mut I,
    output: &mut O,
) -> Outcome
    requires framer { conversation.old.framer ≡ new_framer }
    requires talker { HasAnswered conversation.old.talker [] }
    requires gathered { conversation.old.gathered ≡ [] }
    ensures ends { TalkRuns I.tells O.tells
        (I.feed input.old) (I.feed input.new)
        (O.drain output.old) (O.drain output.new)
        result }
{
    let mut buf = [0; PIECE];
    let mut taken: u64 = 0;
    'input: loop {
        match take_some(input, &mut buf, room_for(taken)) {
            Taken::Got(count) => {
                taken += count as u64;
                if taken > LIMIT {
                    return Outcome::TooLong;
                }
                match conversation.hear(&buf[..count], output) {
                    Heard::All => {}
                    Heard::Closed => return Outcome::Done,
                    Heard::Failed => return Outcome::OutputFault,
                }
            }
            Taken::End => return Outcome::Done,
            Taken::Failed => return Outcome::InputFault,
        }
    }
}

// Returns the room for the next take. At the limit it is one byte, which shows whether the input is
// too long.
fn room_for(taken: u64) -> usize
    requires { taken ≤ input_limit }
    ensures some { 1 ≤ result }
    ensures within { result ≤ 4096 }
    ensures limit { taken + result ≤ input_limit + 1 }
    ensures below { taken < input_limit → taken + result ≤ input_limit }
{
    let left = (LIMIT - taken).min(PIECE as u64) as usize;
    left.max(1)
}
