//! Sources and sinks of bytes.

ghost use Rattle.std.specs.Prelude.{◌≤◌, length};

/// The answer of a call of `take`.
#[derive(Clone, Copy, Debug, PartialEq, Eq)]
pub enum Taken {
    /// This many bytes were written to the start of the buffer; at least one.
    Got(usize),
    /// The source is at its end: nothing is left, at this call and at each later one.
    End,
    /// The source failed and nothing was taken. Its count of faults rose, or has its greatest
    /// value.
    Failed,
}

/// The answer of a call of `put`.
#[derive(Clone, Copy, Debug, PartialEq, Eq)]
pub enum Put {
    /// All bytes were sent.
    Whole,
    /// The sink failed, and a prefix of the bytes was sent. Its count of faults rose, or has its
    /// greatest value.
    Failed,
}

/// A source of bytes, which are taken piece by piece.
pub trait Source {
    ghost use Rattle.satip_base.specs.Streams.{Feed, Takes};

    // The condition under which contracts say which bytes are left: always true, or never.
    ghost tells: { Type 0 };

    // The bytes that are left, whether the end was met, the count of faults, and the count of bytes
    // taken.
    ghost feed: { Self → Feed };

    /// Takes at least one of the bytes that are left, into the start of the buffer, which isn't
    /// empty. Otherwise it returns the end or a failure.
    fn take(&mut self, buf: &mut [u8]) -> Taken
        requires room { 1 ≤ length buf.old }
        ensures takes { Takes tells (feed self.old) (feed self.new) buf.new result };
}

/// A sink, which bytes are sent to.
pub trait Sink {
    ghost use Rattle.satip_base.specs.Streams.{Drain, Puts};

    // The condition under which contracts say which bytes were sent: always true, or never.
    ghost tells: { Type 0 };

    // The bytes that were sent, and the count of faults.
    ghost drain: { Self → Drain };

    /// Sends bytes after those that were sent before.
    fn put(&mut self, bytes: &[u8]) -> Put
        ensures puts { Puts tells (drain self.old) (drain self.new) bytes.now result };
}
