//! The ends of a recording.

/// How a recording ends.
#[derive(Clone, Copy, Debug, PartialEq, Eq)]
pub enum RecordEnd {
    /// All packets were written, and TEARDOWN was sent.
    Done,
    /// The output failed.
    OutputFault,
    /// A reply to SETUP or PLAY has this status, other than 200.
    Refused(u16),
    /// The bytes received aren't the awaited reply, or it gives no session or no stream.
    BadReply,
    /// A reply or the packets didn't arrive in time.
    Silent,
    /// The connection or the inlet failed.
    PeerFault,
    /// The connection ended before the reply.
    Closed,
    /// Memory was refused.
    OutOfMemory,
}
