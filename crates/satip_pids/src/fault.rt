//! Faults of changes of a set.

/// The fault of a change, which leaves the PID set unchanged.
#[derive(Clone, Copy, Debug, PartialEq, Eq)]
pub enum PidFault {
    /// The set would list more than 256 distinct PIDs.
    TooMany,
    /// PIDs can't be removed from the set of all.
    UnderAll,
}
