//! An index of journals: their start lines, and the positions of their entries' records.

ghost use Rattle.std.specs.Prelude.{ℕ, List, [], ◌∷◌, ◌++◌};
ghost use Rattle.satip_audit.specs.Indexes.{AreStarts};

use crate::index::Spot;

/// The reason why there is no verdict on journals.
#[derive(Clone, Copy, Debug, PartialEq, Eq, Drop)]
pub enum JournalFault {
    /// Their first wrong line has this number, from 1.
    WrongLine(u64),
    /// Out of memory.
    OutOfMemory,
}

/// The start lines of journals.
#[derive(Clone, Copy, Debug, PartialEq, Eq, Drop)]
pub enum Starts {
    /// There is none.
    Missing,
    /// There is one, and it names this moment, in milliseconds.
    One(u64),
    /// There are more.
    Several,
}

impl Starts {
    // Adds one start line.
    pub(crate) fn with(self, now: u64) -> Starts
        ensures starts { (moments : List ℕ) → AreStarts moments self
            → AreStarts (moments ++ now ∷ []) result }
    {
        match self {
            Starts::Missing => Starts::One(now),
            Starts::One(_first) => Starts::Several,
            Starts::Several => Starts::Several,
        }
    }
}

/// An index of journals without a wrong line.
#[derive(Drop)]
pub struct Index {
    /// Their start lines.
    pub starts: Starts,
    /// The entries, in the order of the text.
    pub spots: Vec<Spot>,
}
