//! Runs the command `journal`: serves, and each job keeps a journal.
//! Contract: with status 0 each sink that exposes its bytes got the journal of its job as a whole.
//! Whole journals, put together in any order, are judged `yes`. Each end but out of memory has its
//! cause.
#![tactic(auto)]

mod all_jobs;
mod asking;
mod command;
mod ends;
mod gears;
mod journal_examples;
mod memory;
mod one_history;
mod sink_examples;

pub use all_jobs::{Unserved, Written, serve_journaled};
pub use command::{Journaled, journal_by};
pub use ends::JournalEnd;
pub use journal_examples::worked_journals;
pub use one_history::{journals_are_one_history, own_are_behind, text_has_one_verdict};
pub use satip_audit::{AuditCommand, Verdict, verdict};
pub use satip_journal::{Caller, Journal, JournalGear, SharedPass, SharedServer, make};
pub use sink_examples::worked_sinks;
