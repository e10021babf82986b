//! The events of a tunnel, one at a time, and their answers.

use satip_plain::{Answer, Event};

/// An event of the server, a connection that enters, or a connection that drains or leaves its
/// lane.
#[derive(Drop)]
pub enum TunnelEvent {
    Inner(Event),
    Enter,
    Drain { lane: u32 },
    Leave { lane: u32 },
}

/// The answer to an event, by its kind.
#[derive(Clone, Copy, Debug, PartialEq, Eq)]
pub enum TunnelAnswer {
    /// The server's answer.
    Inner(Answer),
    /// The number of the lane of a connection that entered.
    Lane(u32),
    /// No lane is free, or no number is left.
    Full,
    /// The number of bytes of the frames in the reply.
    Frames(usize),
    /// No frame waits.
    Empty,
    /// No frame waits, and one didn't fit before.
    Broken,
    /// The lane isn't held.
    Gone,
    /// The lane was given up.
    Left,
}
