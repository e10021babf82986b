//! The setting that a server is created with.

use satip_tune::Config;

/// A configuration, and the time at which the server starts, in milliseconds of Unix time.
#[derive(Drop)]
pub struct Setting {
    pub config: Config,
    pub start: u64,
}
