//! What comes of a run of jobs.

use std::fmt;

/// How the workers were served, or what came of a run whose memory is refused.
#[derive(Clone, Copy, Debug, PartialEq, Eq)]
pub enum Outcome {
    /// Each worker was served to its end.
    Served,
    /// A connection was sent other bytes.
    WrongBytes,
    /// There are more kits, or fewer.
    WrongKits,
    /// There was no memory, and the kits came back.
    KitsUnused,
    /// There was no memory for kits.
    NoKits,
    /// The desk had no memory for its configuration.
    NoConfiguration,
    /// Something else.
    Wrong,
}

impl fmt::Display for Outcome {
    fn fmt<W: fmt::Write>(&self, f: &mut fmt::Formatter<W>) -> fmt::Result {
        f.write_str(match self {
            Outcome::Served => "served",
            Outcome::WrongBytes => "wrong bytes",
            Outcome::WrongKits => "wrong kits",
            Outcome::KitsUnused => "no memory, kits unused",
            Outcome::NoKits => "no memory, no kits given",
            Outcome::NoConfiguration => "the desk had no memory",
            Outcome::Wrong => "wrong",
        })
    }
}
