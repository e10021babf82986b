//! Faults of values.

/// The fault of a text that gives no value.
#[derive(Clone, Copy, Debug, PartialEq, Eq)]
pub enum ValueFault {
    /// The text doesn't have the form of a value.
    Malformed,
    /// The text has the form of a value, and that value isn't allowed.
    NotAllowed,
}
