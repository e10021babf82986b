//! The multiplexes of a configuration, with their recordings.
ghost use Rattle.std.specs.Prelude.{◌≡◌, ◌≢◌, ◌≤◌, Ok, Err, map, length, IfOk, IfErr};
ghost use Rattle.std.specs.List.{filter_map};
ghost use Rattle.toml.specs.Data.{as_table};
ghost use Rattle.toml.specs.View.{view, table_view};
ghost use Rattle.satip_config.specs.Steps.{Reads};
ghost use Rattle.satip_config.specs.Entries.{mux_at, recordings};
ghost use Rattle.satip_config.specs.Config.{recordings_in};

use crate::fault::ConfigFault;
use crate::key::{ConfigKey, ConfigName};
use crate::values::{check_tables, number_at};
use crate::words::{file_at, frequency_at, pol_at, system_at};
use satip_base::Text;
use satip_tune::Mux;
use std::alloc::Global;
use toml::{Table, Value};

/// Returns the multiplex of the table with this number, and the name of its recording.
#[tactic(auto, unfolding(crate::specs::Entries::mux_at))]
pub(crate) fn mux_at(alloc: Global, table: &Table, number: u16) -> Result<(Mux, Text), ConfigFault>
    ensures value { Reads result (mux_at number (table_view table.now)) }
{
    let src = number_at(table, ConfigKey::mux(number, ConfigName::Src), 1, 255)?;
    let freq = frequency_at(table, ConfigKey::mux(number, ConfigName::Freq))?;
    let pol = pol_at(table, ConfigKey::mux(number, ConfigName::Pol))?;
    let msys = system_at(table, ConfigKey::mux(number, ConfigName::Msys))?;
    let sr = number_at(table, ConfigKey::mux(number, ConfigName::Sr), 1, 99999)?;
    let file = file_at(alloc, table, ConfigKey::mux(number, ConfigName::File))?;
    let mux = Mux {
        src: src as u8,
        freq,
        pol,
        msys,
        sr,
    };
    Ok((mux, file))
}

/// Returns the multiplexes of an array of at most 256 tables, and the names of their recordings.
#[tactic(auto, unfolding(crate::specs::Entries::recordings))]
fn read_muxes(alloc: Global, items: &[Value]) -> Result<(Vec<Mux>, Vec<Text>), ConfigFault>
    requires { length items.now ≤ 256 }
    ensures ok { IfOk result (λ found.
        recordings (filter_map (λ v. as_table (view v)) items.now)
        ≡ Ok (found.0.items, found.1.items)) }
    ensures fault { IfErr result (λ e. e ≢ ConfigFault.Want
        → recordings (filter_map (λ v. as_table (view v)) items.now) ≡ Err e) }
{
    let mut muxes = Vec::new(alloc);
    let mut files = Vec::new(alloc);
    for item in items {
        if let Some(table) = item.as_table() {
            let number = muxes.len() as u16 + 1;
            match mux_at(alloc, table, number) {
                Ok((mux, file)) => {
                    muxes.push(mux)?;
                    files.push(file)?;
                }
                Err(fault) => return Err(fault),
            }
        }
    }
    Ok((muxes, files))
}

/// Returns the multiplexes of an array, and the names of their recordings.
#[tactic(auto, unfolding(crate::specs::Config::recordings_in))]
pub(crate) fn recordings_in(
    alloc: Global,
    items: &[Value],
) -> Result<(Vec<Mux>, Vec<Text>), ConfigFault>
    ensures ok { IfOk result (λ found.
        recordings_in (map view items.now) ≡ Ok (found.0.items, found.1.items)) }
    ensures fault { IfErr result (λ e. e ≢ ConfigFault.Want
        → recordings_in (map view items.now) ≡ Err e) }
{
    check_tables(items, ConfigKey::top(ConfigName::Mux), 0, 256)?;
    read_muxes(alloc, items)
}
