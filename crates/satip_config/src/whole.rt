//! Reading of a whole source.

ghost use Rattle.std.specs.Prelude.{◌≡◌, ◌<◌, ◌≤◌, ◌+◌, ◌^◌, length, MatchResult};
ghost use Rattle.satip_base.specs.Streams.{Takes};
ghost use Rattle.satip_config.specs.Reading.{EndsWhole, ReadFails, GetsAtMost};

use satip_base::{Source, Taken};
use std::alloc::Global;

/// The reason that a source isn't read.
#[derive(Clone, Copy, Debug, PartialEq, Eq)]
pub enum ReadFault {
    /// It has more bytes than the limit.
    TooLong,
    /// It failed.
    Failed,
    /// Out of memory.
    OutOfMemory,
}

const PIECE: usize = 65536;

/// Reads a source of at most `limit` bytes to its end. It takes at most one byte more.
pub fn read_whole<S: Source>(
    alloc: Global,
    source: &mut S,
    limit: usize,
) -> Result<Vec<u8>, ReadFault>
    requires bounded { limit < 2 ^ 32 }
    ensures ends { MatchResult result
        (λ text. EndsWhole S.tells
        (S.feed source.old) (S.feed source.new)
        limit text.items)
        (ReadFails S.tells
        (S.feed source.old) (S.feed source.new)
        limit) }
{
    let mut text = Vec::new(alloc);
    let mut buf = [0; PIECE];
    'source: loop {
        match take_some(source, &mut buf, room_for(limit - text.len())) {
            Taken::Got(count) => {
                if count > limit - text.len() {
                    return Err(ReadFault::TooLong);
                }
                if text.extend_from_slice(&buf[..count]).is_err() {
                    return Err(ReadFault::OutOfMemory);
                }
            }
            Taken::End => return Ok(text),
            Taken::Failed => return Err(ReadFault::Failed),
        }
    }
}

// Returns the most bytes of the next take, one of them beyond the limit: that byte shows that the
// source is too long.
fn room_for(left: usize) -> usize
    ensures some { 1 ≤ result }
    ensures within { result ≤ 65536 }
    ensures limit { result ≤ left + 1 }
{
    left.clamp(1, PIECE)
}

/// Takes at most `room` bytes of a source into the start of the buffer.
pub fn take_some<S: Source>(source: &mut S, buf: &mut [u8], room: usize) -> Taken
    requires some { 1 ≤ room }
    requires within { room ≤ length buf.old }
    ensures takes { Takes S.tells
        (S.feed source.old) (S.feed source.new)
        buf.new result }
    ensures room { GetsAtMost room result }
{
    source.take(&mut buf[..room])
}
