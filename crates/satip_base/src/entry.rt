//! Entries of histories.

/// An entry of a history: one call's caller, its event, its answer, and the contents of its `out`
/// after the call.
#[derive(Drop)]
pub struct Entry<E, A, O> {
    pub caller: u64,
    pub event: E,
    pub answer: A,
    pub out: O,
}

/// An answered event: its answer, and the contents of the call's `out` after it.
#[derive(Drop)]
pub struct Taken<E, A, O> {
    pub event: E,
    pub answer: A,
    pub out: O,
}
