//! Reads recordings from files and pauses so that each plays at its own rate (ISO 13818-1).
//! Contract: a store and a pacer begin with counts of 0 and meet their traits. A packet's clock
//! reference, and the time left until a moment, are their definitions.
//! Only tested: which bytes the files give, the rate, and the length of each pause.
#![tactic(auto)]

mod lull;
mod pacer;
mod progress;
mod read_ahead;
mod recording;
mod recording_clock;
mod references;
mod store;

pub use pacer::{RealPacer, pause_until};
pub use progress::{Played, Progress};
pub use recording::{Named, Playing, RealRecording, RecordingFault};
pub use recording_clock::RecordingClock;
pub use references::{breaks, reference_of, ticks_between};
pub use store::RealStore;
