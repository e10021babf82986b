//! One lane: the frames that wait for a connection.

ghost use Rattle.std.specs.Prelude.{◌≡◌, ◌≤◌, []};
ghost use Rattle.std.specs.List.{concat};
ghost use Rattle.satip_base.specs.Output.{Wrote};
ghost use Rattle.satip_interleave.specs.Frames.{first_frames};
ghost use Rattle.satip_interleave.specs.Lanes.{fresh_lane, is_channel_port, put_in, lane_answer, drained_lane};

use crate::queue::Queue;
use satip_base::Out;

/// The answer to a drain of a lane.
#[derive(Clone, Copy, Debug, PartialEq, Eq)]
pub enum Drained {
    /// The number of bytes of the frames in the reply.
    Frames(usize),
    /// No frame waits.
    Empty,
    /// No frame waits, and one didn't fit before.
    Broken,
    /// The lane isn't held.
    Gone,
}

/// A lane: its number, the frames that wait, and whether one didn't fit.
#[derive(Drop)]
pub(crate) struct Lane {
    number: u32,
    frames: Queue,
    broken: bool,
}

impl Lane {
    /// Creates the lane of a connection that just entered, with an empty queue.
    pub(crate) fn new(number: u32, frames: Queue) -> Lane
        requires empty { frames ≡ [] }
        ensures fresh { result ≡ fresh_lane number }
    {
        Lane {
            number,
            frames,
            broken: false,
        }
    }

    /// Returns the number that the connection was given.
    pub(crate) fn number(&self) -> u32
        ensures number { result ≡ self.now.number }
    {
        self.number
    }

    /// Returns its queue, emptied.
    pub(crate) fn into_queue(self) -> Queue
        ensures empty { result ≡ [] }
    {
        let mut queue = self.frames;
        queue.clear();
        queue
    }

    /// Appends a datagram as a frame, if its port means a channel and the lane isn't broken. A
    /// frame that doesn't fit breaks the lane.
    pub(crate) fn put(&mut self, port: u16, datagram: &[u8])
        ensures put { self.new ≡ put_in port datagram.now self.old }
    {
        if self.broken || !is_channel_port(port) {
            return;
        }
        if !self.frames.append((port - 1) as u8, datagram) {
            self.broken = true;
        }
    }

    /// Moves the first frames to the reply.
    pub(crate) fn drain(&mut self, out: &mut Out) -> Drained
        requires room { 65536 ≤ out.old.reply_spare }
        ensures answer { result ≡ lane_answer self.old.frames self.old.broken }
        ensures drained { self.new ≡ drained_lane self.old }
        ensures wrote { Wrote out.old (concat (first_frames 65536 self.old.frames)) out.new }
    {
        if !self.frames.is_empty() {
            return Drained::Frames(self.frames.drain(out));
        }
        if self.broken {
            Drained::Broken
        } else {
            Drained::Empty
        }
    }
}

// Returns whether the port means a channel: ports 1 to 256 mean channels 0 to 255.
fn is_channel_port(port: u16) -> bool
    ensures is { result ≡ is_channel_port port }
{
    1 <= port && port <= 256
}
