//! The start of bytes: line ends and frames, which are skipped, or a message.
ghost use Rattle.std.specs.Prelude.{◌≡◌, ◌+◌, ◌*◌, ◌<◌, ◌≤◌, length, drop, slice_index, MatchBool};
ghost use Rattle.satip_rtsp_interleaved.specs.Fronts.{IsPassed, IsFront, IsAtMessage, IsOpen};

/// The number of bytes of a frame before its content: `$`, the channel, and the length in two
/// bytes.
const FRAME_HEAD: usize = 4;

/// The start of bytes.
#[derive(Clone, Copy)]
pub(crate) enum Front {
    /// The first n bytes belong to no message; after them m bytes of a frame are still to follow.
    Passed(usize, usize),
    /// No bytes, or a frame's head that isn't whole.
    Open,
    /// The first byte of a message.
    Start,
}

/// The place after the line ends and frames at the start of bytes.
#[derive(Clone, Copy)]
pub(crate) struct Place {
    /// The number of bytes that were skipped.
    pub count: usize,
    /// The number of bytes of a frame that are still to follow.
    pub to_come: usize,
    /// Whether a message begins there; else there is nothing, or a frame's head that isn't whole.
    pub at_message: bool,
}

/// Skips the line ends and frames at the start; of a frame that isn't whole, the bytes that are
/// there.
pub(crate) fn pass_over(held: &[u8], to_come: usize) -> Place
    ensures passed { IsPassed held.now to_come result.count result.to_come }
    ensures stands { MatchBool result.at_message
        (IsAtMessage (drop result.count held.now) result.to_come)
        (IsOpen (drop result.count held.now) result.to_come) }
{
    let mut at = 0;
    let mut left = to_come;
    let mut front = look(held, to_come);
    while let Front::Passed(count, more) = front {
        at += count;
        left = more;
        front = look(held.split_at(at).1, left);
    }
    Place {
        count: at,
        to_come: left,
        at_message: matches!(front, Front::Start),
    }
}

// Returns what the bytes begin with, if `to_come` bytes of a frame are still to follow.
fn look(bytes: &[u8], to_come: usize) -> Front
    ensures front { IsFront bytes.now to_come result }
{
    let Some(first) = bytes.first() else {
        return Front::Open;
    };
    if to_come > 0 {
        let count = to_come.min(bytes.len());
        return Front::Passed(count, to_come - count);
    }
    if *first == b'\r' || *first == b'\n' {
        return Front::Passed(1, 0);
    }
    if *first != b'$' {
        return Front::Start;
    }
    if bytes.len() < FRAME_HEAD {
        return Front::Open;
    }
    Front::Passed(FRAME_HEAD, frame_length(bytes))
}

// Returns the number of bytes that a frame has after its head.
fn frame_length(bytes: &[u8]) -> usize
    requires head { 4 ≤ length bytes.now }
    ensures length { result ≡ slice_index bytes.now 2 * 256 + slice_index bytes.now 3 }
{
    bytes[2] as usize * 256 + bytes[3] as usize
}
