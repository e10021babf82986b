//! Judges journals: whether their entries are one legal history of the server.
//! Contract: the result is the verdict on the whole text by the configuration, or the number of its
//! first wrong line. The command writes the verdict in one line, or a prefix of it; each other end
//! but out of memory has its cause.
#![tactic(auto)]

mod auditing;
mod command;
mod comparing;
mod cutting;
mod index;
mod indexing;
mod journals;
mod judging;
mod lines;
mod printing;
mod verdict_examples;
mod verdict_law;
mod verdicts;

pub use auditing::audit;
pub use command::AuditCommand;
pub use cutting::{cut_line, same_bytes};
pub use index::{Spot, first_missing, first_repeated, sort_spots};
pub use indexing::index_journals;
pub use journals::{Index, JournalFault, Starts};
pub use judging::verdict;
pub use lines::{Found, read_entry, read_start};
pub use printing::print_verdict;
pub use satip_entry_reader::read_record;
pub use satip_entry_writer::{LineRoom, write_entry};
pub use verdict_examples::worked_verdicts;
pub use verdict_law::{journals_say_one_thing, yes_is_legal};
pub use verdicts::Verdict;
