//! Faults of queries.

use satip_tune::Key;

/// The fault of a query, with the key of its first faulty piece from the left.
#[derive(Clone, Copy, Debug, PartialEq, Eq)]
pub enum QueryFault {
    /// The key occurred before, or its value doesn't have the form of one.
    Syntax(Key),
    /// The key's value has the form of one, and it isn't allowed.
    Range(Key),
}
