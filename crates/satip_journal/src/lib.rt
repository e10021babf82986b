//! A caller of the shared server that keeps a journal: it writes a line for each of its entries.
//! Contract: a sink that exposes its bytes gets the lines of its caller's entries in order, until a
//! put fails. A failed put changes no answer.
#![tactic(auto)]

mod crew;
mod journal;
mod journal_text_examples;

pub use crew::JournalGear;
pub use journal::Journal;
pub use journal_text_examples::worked_journal;
pub use satip_shared::{Caller, SharedPass, SharedServer, make};
