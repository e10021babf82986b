//! Merges tunings, finds the front ends that fit and the multiplex of a tuning.
//! Contract: `merge`, `first`, `fits` and `mux_of` are their definitions; each word of a tuning is
//! read back as its value.
#![tactic(auto)]

mod configuration;
mod faults;
mod frequency;
mod frequency_text;
mod frontends;
mod keys;
mod pieces;
mod signal;
mod tunings;

pub use configuration::Config;
pub use faults::ValueFault;
pub use frequency::{is_fraction, read_frequency};
pub use frequency_text::FrequencyText;
pub use frontends::{Front, Mux, fits, mux_of};
pub use keys::Key;
pub use pieces::{cut, same_bytes};
pub use signal::{Fec, Modulation, Pol, RollOff, System, pilots_named, pilots_text};
pub use tunings::{Change, Tuning, first, merge};
