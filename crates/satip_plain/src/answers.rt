//! The answers of the server, one kind for each kind of event.

use satip_base::SessionId;

/// The answer to a tick or a stop: whether the server goes on.
#[derive(Clone, Copy, Debug, PartialEq, Eq)]
pub enum Beat {
    Going,
    Stopping,
}

/// The next work of a front end's pump.
#[derive(Clone, Copy, Debug, PartialEq, Eq)]
pub enum Work {
    /// Read the recording of multiplex `mux` (from 1) for the front end's tune number `tune`.
    Tune { mux: u16, tune: u64 },
    /// Nothing to read; the pump asks again.
    Nothing,
    /// The server stops, and the pump ends.
    Stopping,
}

/// The status of an RTSP reply, and whether the connection is closed after it.
#[derive(Clone, Copy, Debug, PartialEq, Eq)]
pub struct Replied {
    pub status: u16,
    pub closing: bool,
}

/// The answer to a GET: the session that it started, or the status of its refusal.
#[derive(Clone, Copy, Debug, PartialEq, Eq)]
pub enum GetAnswer {
    Started(SessionId),
    Refused(u16),
}

/// The answer to a pull: the count of bytes that it moved, that the queue was empty, or that no
/// HTTP session has this id.
#[derive(Clone, Copy, Debug, PartialEq, Eq)]
pub enum Pulled {
    Bytes(usize),
    Empty,
    Gone,
}

/// The answer to a close: the HTTP session ended, or no HTTP session has this id.
#[derive(Clone, Copy, Debug, PartialEq, Eq)]
pub enum Closed {
    Yes,
    Gone,
}

/// The answer to an event, by its kind.
#[derive(Clone, Copy, Debug, PartialEq, Eq)]
pub enum Answer {
    Replied(Replied),
    Get(GetAnswer),
    Beat(Beat),
    Work(Work),
    Pulled(Pulled),
    Closed(Closed),
}
