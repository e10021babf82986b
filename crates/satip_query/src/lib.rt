//! Reads and prints the queries of targets (SAT>IP 1.2.2, 3.5.9 and 3.5.10); writes refusals.
//! Contract: `read` returns a query exactly if the text is one, else the text's first fault; a
//! printed query is read as itself.
#![tactic(auto)]

mod bodies;
mod faults;
mod printing;
mod queries;
mod reading;
mod statuses;
mod values;

pub use bodies::{RefusalBody, write_body, write_number_line};
pub use faults::QueryFault;
pub use printing::print;
pub use queries::{PidsGiven, Query};
pub use reading::read;
pub use satip_tune::same_bytes;
pub use statuses::phrase;
