//! Writes the SES1 text of a stream and its RTCP reports (RFC 3550, section 6).
//! Contract: the text and the report are their definitions, byte for byte.
#![tactic(auto)]

mod address;
mod kept;
mod report;
mod ses1;
mod views;

pub use address::write_address;
pub use kept::KeptTexts;
pub use report::write_report;
pub use ses1::ses1_text;
pub use views::{Sender, StreamView};
