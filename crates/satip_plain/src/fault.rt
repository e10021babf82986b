//! The faults of a service.

/// Why a service added no entry for an event.
#[derive(Clone, Copy, Debug, PartialEq, Eq)]
pub enum ServiceFault {
    /// The history is full.
    Spent,
    /// Out of memory.
    Want,
}
