//! Reads the configuration file, a TOML text, and has the outcomes of commands: their statuses and
//! lines.
//! Contract: the result is the configuration of the source's whole text, with which a server can be
//! made, or why there is none: the text's first fault, a source that failed, or out of memory. An
//! outcome has the status and the line of its definition.
//! Trusted: that the grammar of `toml` is the standard's.
#![tactic(auto)]

mod fault;
mod fronts;
mod key;
mod lines;
mod muxes;
mod outcome;
mod read;
mod reading;
mod values;
mod whole;
mod words;

pub use fault::ConfigFault;
pub use key::{ConfigKey, ConfigName, ConfigTable};
pub use lines::say;
pub use outcome::Outcome;
pub use read::read_config;
pub use reading::{ConfigurationEnd, read_configuration};
pub use satip_tune::Config;
pub use whole::{ReadFault, read_whole, take_some};
