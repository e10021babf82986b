//! The outcomes of the parts of a connection.

/// How the service of a connection of a tunnel ended.
#[derive(Clone, Copy, Debug, PartialEq, Eq)]
pub enum TunnelEnd {
    /// No lane was given.
    Full,
    /// Its lane was broken: frames arrived faster than it took them.
    Broken,
    /// Its input ended, or a closing reply was sent.
    Done,
    /// A receive failed.
    ReadFault,
    /// A send failed.
    WriteFault,
    /// The history of the tunnel is full.
    Spent,
}

/// The outcome of an Enter.
#[derive(Clone, Copy, Debug, PartialEq, Eq)]
pub(crate) enum Entered {
    /// The lane of this number.
    Lane(u32),
    /// No lane was given.
    Full,
    /// The history is full.
    Spent,
}

/// The outcome of one drain.
#[derive(Clone, Copy, Debug, PartialEq, Eq)]
pub(crate) enum Drained {
    /// Frames were sent, and more may wait.
    More,
    /// No frame waited.
    Dry,
    /// The lane is broken.
    Broken,
    /// A send failed.
    Lost,
    /// The history is full.
    Spent,
}

/// The outcome of draining, or of a request with the drains after it.
#[derive(Clone, Copy, Debug, PartialEq, Eq)]
pub(crate) enum Way {
    /// All was sent.
    On,
    /// The lane is broken.
    Broken,
    /// A send failed.
    Lost,
    /// The history is full.
    Spent,
}

/// The outcome of hearing some bytes.
#[derive(Clone, Copy, Debug, PartialEq, Eq)]
pub(crate) enum Heard {
    /// All whole messages were answered.
    All,
    /// The last reply was a closing one.
    Closed,
    /// The lane is broken.
    Broken,
    /// A send failed.
    Lost,
    /// The history is full.
    Spent,
}
