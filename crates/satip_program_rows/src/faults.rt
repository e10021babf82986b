//! The faults of a run of rows.

use satip_base::Want;
use std::alloc::{AllocError, AllocFailed};
use std::{fmt, io};

/// The reason why rows can't be read or run.
#[derive(Clone, Copy, Debug, PartialEq, Eq)]
pub(crate) enum Fault {
    /// Out of memory.
    Memory,
    /// The output or the argument list failed.
    System,
    /// A file can't be read as UTF-8.
    File,
    /// The first word of a line isn't known.
    Keyword,
    /// A line belongs to a row, and none has begun.
    NoRow,
    /// A row has no name, or that of another row.
    RowName,
    /// A line isn't in its form.
    Form,
    /// A number isn't in its range.
    Number,
    /// An escape isn't known.
    Escape,
    /// A bracket has no counterpart in its line.
    Bracket,
    /// A name has no text.
    NoText,
    /// A text follows no word that begins one.
    Stray,
    /// A word isn't UTF-8.
    Word,
    /// The input has another length than the row says.
    Length,
}

impl fmt::Display for Fault {
    fn fmt<W: fmt::Write>(&self, f: &mut fmt::Formatter<W>) -> fmt::Result {
        f.write_str(match self {
            Fault::Memory => "out of memory",
            Fault::System => "the system failed",
            Fault::File => "the file can't be read",
            Fault::Keyword => "the first word isn't known",
            Fault::NoRow => "no row has begun",
            Fault::RowName => "the row has no name, or that of another row",
            Fault::Form => "the line isn't in its form",
            Fault::Number => "a number isn't in its range",
            Fault::Escape => "an escape isn't known",
            Fault::Bracket => "a bracket has no counterpart",
            Fault::NoText => "a name has no text",
            Fault::Stray => "the text follows no word that begins one",
            Fault::Word => "a word isn't UTF-8",
            Fault::Length => "the input has another length",
        })
    }
}

impl From<AllocError> for Fault {
    fn from(_error: AllocError) -> Fault {
        Fault::Memory
    }
}

impl<T: Drop> From<AllocFailed<T>> for Fault {
    fn from(_error: AllocFailed<T>) -> Fault {
        Fault::Memory
    }
}

impl From<Want> for Fault {
    fn from(_want: Want) -> Fault {
        Fault::Memory
    }
}

impl From<io::Error> for Fault {
    fn from(_error: io::Error) -> Fault {
        Fault::System
    }
}
