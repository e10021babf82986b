//! Strings of a configuration that are parsed further.
ghost use Rattle.std.specs.Prelude.{◌≡◌};
ghost use Rattle.toml.specs.View.{table_view};
ghost use Rattle.satip_base.specs.Numbers.{ip_of};
ghost use Rattle.satip_tune.specs.Words.{pol_named, system_named};
ghost use Rattle.satip_config.specs.Steps.{counted, Reads};
ghost use Rattle.satip_config.specs.Values.{khz_of, word_at};

use crate::fault::ConfigFault;
use crate::key::ConfigKey;
use crate::values::text_at;
use satip_base::{Text, read_ip};
use satip_tune::{Pol, System, read_frequency};
use std::alloc::Global;
use toml::Table;

/// Returns the IPv4 address of a key, in host order.
#[tactic(auto, unfolding(crate::specs::Values::word_at))]
pub(crate) fn address_at(table: &Table, key: ConfigKey) -> Result<u32, ConfigFault>
    ensures value { result ≡ word_at ip_of key (table_view table.now) }
{
    let text = text_at(table, key)?;
    read_ip(text.as_bytes()).ok_or(ConfigFault::Value(key))
}

/// Returns the frequency of a key, in kHz.
#[tactic(auto, unfolding(crate::specs::Values::word_at))]
pub(crate) fn frequency_at(table: &Table, key: ConfigKey) -> Result<u32, ConfigFault>
    ensures value { result ≡ word_at khz_of key (table_view table.now) }
{
    let text = text_at(table, key)?;
    read_frequency(text.as_bytes()).map_err(|_| ConfigFault::Value(key))
}

/// Returns the polarisation of a key.
#[tactic(auto, unfolding(crate::specs::Values::word_at))]
pub(crate) fn pol_at(table: &Table, key: ConfigKey) -> Result<Pol, ConfigFault>
    ensures value { result ≡ word_at pol_named key (table_view table.now) }
{
    let text = text_at(table, key)?;
    Pol::named(text.as_bytes()).ok_or(ConfigFault::Value(key))
}

/// Returns the delivery system of a key.
#[tactic(auto, unfolding(crate::specs::Values::word_at))]
pub(crate) fn system_at(table: &Table, key: ConfigKey) -> Result<System, ConfigFault>
    ensures value { result ≡ word_at system_named key (table_view table.now) }
{
    let text = text_at(table, key)?;
    System::named(text.as_bytes()).ok_or(ConfigFault::Value(key))
}

/// Returns the file name of a key, of 1 to 255 bytes.
#[tactic(auto, unfolding(crate::specs::Values::word_at))]
pub(crate) fn file_at(alloc: Global, table: &Table, key: ConfigKey) -> Result<Text, ConfigFault>
    ensures value { Reads result (word_at (counted 1 255) key (table_view table.now)) }
{
    let text = text_at(table, key)?;
    if text.is_empty() || text.len() > 255 {
        return Err(ConfigFault::Value(key));
    }
    Text::of(alloc, text).map_err(|_| ConfigFault::Want)
}
