//! Reading of a configuration.
ghost use Rattle.std.specs.Prelude.{None, ◌≡◌, ◌≢◌, ◌<◌, ◌≤◌, ◌↔◌, length, map, true, false, Ok, Err, IfOk, IfErr, MatchOption};
ghost use Rattle.std.specs.List.{range_with_len};
ghost use Rattle.std.specs.Str.{is_utf8};
ghost use Rattle.toml.specs.View.{table_view};
ghost use Rattle.satip_config.specs.Steps.{Reads};
ghost use Rattle.satip_config.specs.Limits.{IsWithin, IsWithinRanges};
ghost use Rattle.satip_config.specs.Config.{fronts_of, recordings_of, configuration_of, document, document_of, config};

use crate::fault::ConfigFault;
use crate::fronts::fronts_in;
use crate::key::{ConfigKey, ConfigName};
use crate::muxes::recordings_in;
use crate::values::{array, array_at, number_or, value_at};
use crate::words::address_at;
use satip_base::Text;
use satip_base::limits::CONFIGURATION;
use satip_tune::{Config, Front, Mux};
use std::alloc::Global;
use toml::Table;

/// Returns the front ends of a document.
#[tactic(auto, unfolding(crate::specs::Config::fronts_of))]
fn fronts_of(alloc: Global, table: &Table) -> Result<Vec<Front>, ConfigFault>
    ensures ok { IfOk result (λ fronts. fronts_of (table_view table.now) ≡ Ok fronts.items) }
    ensures fault { IfErr result (λ e. e ≢ ConfigFault.Want
        → fronts_of (table_view table.now) ≡ Err e) }
{
    let items = array_at(table, ConfigKey::top(ConfigName::Frontend))?;
    fronts_in(alloc, items)
}

/// Returns the multiplexes of a document, and the names of their recordings.
#[tactic(auto, unfolding(crate::specs::Config::recordings_of))]
fn recordings_of(alloc: Global, table: &Table) -> Result<(Vec<Mux>, Vec<Text>), ConfigFault>
    ensures ok { IfOk result (λ found.
        recordings_of (table_view table.now) ≡ Ok (found.0.items, found.1.items)) }
    ensures fault { IfErr result (λ e. e ≢ ConfigFault.Want
        → recordings_of (table_view table.now) ≡ Err e) }
{
    let key = ConfigKey::top(ConfigName::Mux);
    match value_at(table, key) {
        Some(value) => recordings_in(alloc, array(value, key)?),
        None => Ok((Vec::new(alloc), Vec::new(alloc))),
    }
}

/// Returns the configuration of a document.
#[tactic(auto, unfolding(crate::specs::Config::configuration_of))]
fn configuration_of(alloc: Global, table: &Table) -> Result<Config, ConfigFault>
    ensures value { Reads result (configuration_of (table_view table.now)) }
{
    let address = address_at(table, ConfigKey::top(ConfigName::Address))?;
    let rtsp_port = number_or(table, ConfigKey::top(ConfigName::RtspPort), 1, 65535, 554)?;
    let http_port = number_or(table, ConfigKey::top(ConfigName::HttpPort), 1, 65535, 8875)?;
    let timeout = number_or(table, ConfigKey::top(ConfigName::Timeout), 10, 3600, 60)?;
    let workers = number_or(table, ConfigKey::top(ConfigName::Workers), 1, 64, 8)?;
    let fronts = fronts_of(alloc, table)?;
    let (muxes, files) = recordings_of(alloc, table)?;
    Ok(Config {
        address,
        rtsp_port: rtsp_port as u16,
        http_port: http_port as u16,
        timeout,
        workers: workers as u16,
        fronts,
        muxes,
        files,
    })
}

/// Returns the bytes as a text, if they are UTF-8.
#[tactic(auto, using(crate::proofs::Texts::texts))]
fn text_of(bytes: &[u8]) -> Option<&str>
    ensures value { MatchOption result
        (is_utf8 bytes.now ≡ false)
        (λ text. (text.now ≡ bytes.now) × (is_utf8 bytes.now ≡ true)) }
{
    match std::str::from_utf8(bytes) {
        Ok(text) => Some(text),
        Err(_) => None,
    }
}

/// Returns the document of a text.
fn document_of(alloc: Global, bytes: &[u8]) -> Result<Table, ConfigFault>
    ensures ok { IfOk result (λ table. document_of bytes.now ≡ Ok (table_view table)) }
    ensures fault { IfErr result (λ e. e ≢ ConfigFault.Want → document_of bytes.now ≡ Err e) }
    ensures long { IfErr result (λ e. (e ≡ ConfigFault.Long) ↔ (CONFIGURATION < length bytes.now)) }
    ensures not_toml { IfErr result (λ e. e ≡ ConfigFault.NotToml → document bytes.now ≡ None) }
{
    if bytes.len() > CONFIGURATION {
        return Err(ConfigFault::Long);
    }
    let text = text_of(bytes).ok_or(ConfigFault::NotToml)?;
    match toml::table_from_str(alloc, text) {
        Ok(table) => Ok(table),
        Err(error) if error.is_memory() => Err(ConfigFault::Want),
        Err(_) => Err(ConfigFault::NotToml),
    }
}

/// Reads a configuration: TOML with the keys of the table in docs/PROTOCOL.md; other keys are
/// ignored. The error is the first fault, in the order of that table. For one key a wrong kind
/// precedes a value that isn't allowed; `Long` and `NotToml` precede both. `Want` is out of memory,
/// and says nothing about the text.
#[tactic(auto, unfolding(crate::specs::Config::config))]
pub fn read_config(alloc: Global, bytes: &[u8]) -> Result<Config, ConfigFault>
    ensures ok { IfOk result (λ c. config bytes.now ≡ Ok c) }
    ensures fault { IfErr result (λ e. e ≢ ConfigFault.Want → config bytes.now ≡ Err e) }

    // The faults that aren't those of a key.
    ensures long { (result ≡ Err ConfigFault.Long) ↔ (CONFIGURATION < length bytes.now) }
    ensures not_toml { result ≡ Err ConfigFault.NotToml → document bytes.now ≡ None }

    // The properties of every configuration that is read.
    ensures front_count { IfOk result (λ c. IsWithin 1 16 (length c.fronts)) }
    ensures front_numbers { IfOk result
        (λ c. map (λ f. f.number) c.fronts ≡ range_with_len 1 (length c.fronts)) }
    ensures mux_count { IfOk result (λ c. length c.muxes ≤ 256) }
    ensures paired { IfOk result (λ c. length c.files ≡ length c.muxes) }
    ensures ranges { IfOk result IsWithinRanges }
{
    let table = document_of(alloc, bytes)?;
    configuration_of(alloc, &table)
}
