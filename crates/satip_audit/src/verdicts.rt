//! Verdicts on journals.

/// The verdict on journals without a wrong line: the first of these that applies.
#[derive(Clone, Copy, Debug, PartialEq, Eq)]
pub enum Verdict {
    /// The number of start lines isn't one.
    NoStart,
    /// The least place that two entries have.
    Repeated(u64),
    /// The least place that no entry has below one that an entry has.
    Missing(u64),
    /// The least place whose answer, reply or datagrams aren't those of the server after the
    /// entries before it.
    Differs(u64),
    /// The entries are one legal history, of this many entries.
    Yes(u64),
}
