//! Errors of calls that couldn't do their work.

/// Out of memory: an allocation was refused. The call's contract says what is unchanged then.
#[derive(Clone, Copy, Debug, PartialEq, Eq)]
pub struct Want;

/// A device failed. Its count of faults rose, or has its greatest value.
#[derive(Clone, Copy, Debug, PartialEq, Eq)]
pub struct Failed;

/// The history has 18446744073709551615 entries, so no further one is appended.
#[derive(Clone, Copy, Debug, PartialEq, Eq)]
pub struct Spent;
