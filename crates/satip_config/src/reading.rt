//! Reading of a configuration from a source.

ghost use Rattle.std.specs.Prelude.{◌+◌, ◌≤◌, IfOk, IfErr};
ghost use Rattle.satip_config.specs.Configurations.{Configured, IsServed, ConfigurationEnds, configuration_limit};

use crate::fault::ConfigFault;
use crate::read::read_config;
use crate::whole::{ReadFault, read_whole};
use satip_base::Source;
use satip_base::limits::CONFIGURATION;
use satip_tune::Config;
use std::alloc::Global;

/// The reason that no configuration is read.
#[derive(Clone, Copy, Debug, PartialEq, Eq)]
pub enum ConfigurationEnd {
    /// The text's first fault.
    Fault(ConfigFault),
    /// The source failed.
    SourceFailed,
    /// Out of memory.
    OutOfMemory,
}

/// Reads a whole configuration, and takes at most 1048577 bytes. The section Configuration of
/// docs/PROTOCOL.md has the format.
pub fn read_configuration<C: Source>(
    alloc: Global,
    source: &mut C,
) -> Result<Config, ConfigurationEnd>
    ensures ok { IfOk result (λ c. Configured C.tells
        (C.feed source.old) (C.feed source.new) c) }
    ensures served { IfOk result IsServed }
    ensures fault { IfErr result (ConfigurationEnds C.tells
        (C.feed source.old) (C.feed source.new)) }
    ensures limit { (C.feed source.new).taken
        ≤ (C.feed source.old).taken + configuration_limit + 1 }
{
    let text = match read_whole(alloc, source, CONFIGURATION) {
        Ok(text) => text,
        Err(ReadFault::TooLong) => return Err(ConfigurationEnd::Fault(ConfigFault::Long)),
        Err(ReadFault::Failed) => return Err(ConfigurationEnd::SourceFailed),
        Err(ReadFault::OutOfMemory) => return Err(ConfigurationEnd::OutOfMemory),
    };
    match read_config(alloc, &text) {
        Ok(configuration) => Ok(configuration),
        Err(ConfigFault::Want) => Err(ConfigurationEnd::OutOfMemory),
        Err(fault) => Err(ConfigurationEnd::Fault(fault)),
    }
}
