//! The ends of serving with journals.

ghost use Rattle.std.specs.Prelude.{◌≡◌};
ghost use Rattle.satip_journal_serve.specs.Statuses.{end_of_reading, end_of_run, outcome_of};

use satip_config::{ConfigFault, ConfigurationEnd, Outcome};
use satip_serve::ServeEnd;

/// The end of serving with journals.
#[derive(Clone, Copy, Debug, PartialEq, Eq)]
pub enum JournalEnd {
    /// All doors and all jobs ended, and the journals are whole.
    Served,
    /// The configuration has this first fault.
    Configuration(ConfigFault),
    /// No configuration was opened, or its source failed.
    InputFault,
    /// A journal failed, or the desk gave none.
    JournalFault,
    /// The doors of a worker failed, or the desk gave no kits.
    DoorsFault,
    /// The history is full.
    HistoryFull,
    /// Out of memory. No job began.
    OutOfMemory,
}

impl JournalEnd {
    // Returns the end if the run of all jobs ended so. `failed`: a put on a journal failed.
    pub(crate) fn of_run(end: ServeEnd, failed: bool) -> JournalEnd
        ensures end { result ≡ end_of_run end failed }
    {
        match end {
            ServeEnd::Served => {
                if failed {
                    JournalEnd::JournalFault
                } else {
                    JournalEnd::Served
                }
            }
            ServeEnd::DoorsFault => JournalEnd::DoorsFault,
            ServeEnd::HistoryFull => JournalEnd::HistoryFull,
        }
    }

    /// Returns the outcome of a command that ends so.
    pub fn outcome(self) -> Outcome
        ensures outcome { result ≡ outcome_of self }
    {
        match self {
            JournalEnd::Served => Outcome::Done,
            JournalEnd::Configuration(fault) => Outcome::Configuration(fault),
            JournalEnd::InputFault => Outcome::InputFault,
            JournalEnd::JournalFault => Outcome::OutputFault,
            JournalEnd::DoorsFault => Outcome::DoorsFault,
            JournalEnd::HistoryFull => Outcome::HistoryFull,
            JournalEnd::OutOfMemory => Outcome::OutOfMemory,
        }
    }
}

impl From<ConfigurationEnd> for JournalEnd {
    ghost from_gives = { λ end result. result ≡ end_of_reading end };

    fn from(end: ConfigurationEnd) -> JournalEnd {
        match end {
            ConfigurationEnd::Fault(fault) => JournalEnd::Configuration(fault),
            ConfigurationEnd::SourceFailed => JournalEnd::InputFault,
            ConfigurationEnd::OutOfMemory => JournalEnd::OutOfMemory,
        }
    }
}
