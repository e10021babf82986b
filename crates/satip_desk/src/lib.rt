//! Declares the desk: it opens configurations and gives jobs their kits, a client its devices.
//! Contract: the kits are unused, and one for each job of the configuration; contracts see them by
//! views. A journal stays that of its job. A call that gives nothing failed, and the count of
//! faults rose, or memory was refused.
#![tactic(auto)]

mod desk;
mod journals;
mod kits;

pub use desk::{Desk, JobsFault};
pub use journals::{JobJournal, JobSink};
pub use kits::{Devices, JobKits, Jobs, PumpKit, TickKit, WorkerKit};
