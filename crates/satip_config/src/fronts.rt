//! The front ends of a configuration.
ghost use Rattle.std.specs.Prelude.{◌≡◌, ◌≢◌, ◌≤◌, ◌&&◌, false, Ok, Err, is_some, map, length, IfSome, IfOk, IfErr, option_and_then};
ghost use Rattle.std.specs.List.{list_all, list_any, filter_map};
ghost use Rattle.std.specs.Option.{option_map_or};
ghost use Rattle.toml.specs.Data.{as_integer, as_str, as_table};
ghost use Rattle.toml.specs.View.{view, table_view};
ghost use Rattle.satip_tune.specs.Signal.{system_eq};
ghost use Rattle.satip_tune.specs.Words.{system_named};
ghost use Rattle.satip_config.specs.Steps.{is_within};
ghost use Rattle.satip_config.specs.Values.{within};
ghost use Rattle.satip_config.specs.Entries.{source_places, system_places, sources_in, systems_in, front_at, entries};
ghost use Rattle.satip_config.specs.Config.{fronts_in};

use crate::fault::ConfigFault;
use crate::key::{ConfigKey, ConfigName};
use crate::values::{array_at, check_tables, is_counted, within};
use satip_tune::{Front, System};
use std::alloc::Global;
use toml::{Table, Value};

/// Returns the source of an item: an integer from 1 to 255.
fn source_of(item: &Value) -> Option<u32>
    ensures value { result ≡ option_and_then (within 1 255) (as_integer (view item.now)) }
    ensures range { IfSome result (λ n. n ≤ 255) }
{
    within(item.as_integer()?, 1, 255)
}

/// Returns the system with the name of an item.
fn system_of(item: &Value) -> Option<System>
    ensures value { result ≡ option_and_then system_named (as_str (view item.now)) }
{
    System::named(item.as_str()?.as_bytes())
}

/// Returns the places of the sources of the items: place n is true if n is one of them.
fn source_places(items: &[Value]) -> [bool; 256]
    ensures value { result ≡ source_places
        (filter_map (λ v. option_and_then (within 1 255) (as_integer (view v))) items.now) }
{
    let mut places = [false; 256];
    for item in items {
        if let Some(source) = source_of(item) {
            places[source as usize] = true;
        }
    }
    places
}

/// Returns whether an item has the name of the system.
fn names_system(item: &Value, system: System) -> bool
    ensures value { result
        ≡ option_map_or (system_eq system) (option_and_then system_named (as_str (view item.now)))
        false }
{
    match system_of(item) {
        Some(System::Dvbs) => match system {
            System::Dvbs => true,
            System::Dvbs2 => false,
        },
        Some(System::Dvbs2) => match system {
            System::Dvbs => false,
            System::Dvbs2 => true,
        },
        None => false,
    }
}

/// Returns whether some item has the name of the system.
fn name_system(items: &[Value], system: System) -> bool
    ensures value { result ≡ list_any
        (λ v. option_map_or (system_eq system) (option_and_then system_named (as_str (view v)))
        false)
        items.now }
{
    items.iter().any(|item| names_system(item, system))
}

/// Returns the places of the systems of the items: place 0 for DVB-S, place 1 for DVB-S2.
#[tactic(auto, using(crate::proofs::Wholes::wholes), unfolding(crate::specs::Entries::system_places))]
fn system_places(items: &[Value]) -> [bool; 2]
    ensures value { result ≡ system_places
        (filter_map (λ v. option_and_then system_named (as_str (view v))) items.now) }
{
    let dvbs = name_system(items, System::Dvbs);
    let dvbs2 = name_system(items, System::Dvbs2);
    [dvbs, dvbs2]
}

/// Returns whether all items are integers.
fn are_integers(items: &[Value]) -> bool
    ensures value { result ≡ list_all (λ v. is_some (as_integer (view v))) items.now }
{
    items.iter().all(|item| item.is_integer())
}

/// Returns whether all items are strings.
fn are_strings(items: &[Value]) -> bool
    ensures value { result ≡ list_all (λ v. is_some (as_str (view v))) items.now }
{
    items.iter().all(|item| item.is_str())
}

/// Returns whether each item is a source.
fn name_sources(items: &[Value]) -> bool
    ensures value { result ≡ list_all
        (λ v. is_some (option_and_then (within 1 255) (as_integer (view v)))) items.now }
{
    items.iter().all(|item| source_of(item).is_some())
}

/// Returns whether each item is a system.
fn name_systems(items: &[Value]) -> bool
    ensures value { result ≡ list_all
        (λ v. is_some (option_and_then system_named (as_str (view v)))) items.now }
{
    items.iter().all(|item| system_of(item).is_some())
}

/// Returns whether the items are 1 to 255 sources.
fn are_sources(items: &[Value]) -> bool
    ensures value { result ≡ (is_within 1 255 (length items.now) && list_all
        (λ v. is_some (option_and_then (within 1 255) (as_integer (view v)))) items.now) }
{
    is_counted(items, 1, 255) && name_sources(items)
}

/// Returns whether the items are one or two systems.
fn are_systems(items: &[Value]) -> bool
    ensures value { result ≡ (is_within 1 2 (length items.now) && list_all
        (λ v. is_some (option_and_then system_named (as_str (view v)))) items.now) }
{
    is_counted(items, 1, 2) && name_systems(items)
}

/// Returns the sources of an array.
#[tactic(auto, unfolding(crate::specs::Entries::sources_in), using(crate::proofs::Lists::lists))]
fn sources_in(items: &[Value], key: ConfigKey) -> Result<[bool; 256], ConfigFault>
    ensures value { result ≡ sources_in key (map view items.now) }
{
    if !are_integers(items) {
        return Err(ConfigFault::Shape(key));
    }
    if !are_sources(items) {
        return Err(ConfigFault::Value(key));
    }
    Ok(source_places(items))
}

/// Returns the systems of an array.
#[tactic(auto, unfolding(crate::specs::Entries::systems_in), using(crate::proofs::Lists::lists))]
fn systems_in(items: &[Value], key: ConfigKey) -> Result<[bool; 2], ConfigFault>
    ensures value { result ≡ systems_in key (map view items.now) }
{
    if !are_strings(items) {
        return Err(ConfigFault::Shape(key));
    }
    if !are_systems(items) {
        return Err(ConfigFault::Value(key));
    }
    Ok(system_places(items))
}

/// Returns the front end of the table with this number.
#[tactic(auto, unfolding(crate::specs::Entries::front_at))]
pub(crate) fn front_at(table: &Table, number: u16) -> Result<Front, ConfigFault>
    ensures value { result ≡ front_at number (table_view table.now) }
{
    let sources_key = ConfigKey::front(number, ConfigName::Sources);
    let systems_key = ConfigKey::front(number, ConfigName::Systems);
    let sources = sources_in(array_at(table, sources_key)?, sources_key)?;
    let systems = systems_in(array_at(table, systems_key)?, systems_key)?;
    Ok(Front {
        number,
        sources,
        systems,
    })
}

/// Returns the front ends of an array of at most 16 tables.
fn read_fronts(alloc: Global, items: &[Value]) -> Result<Vec<Front>, ConfigFault>
    requires { length items.now ≤ 16 }
    ensures ok { IfOk result (λ fronts.
        entries front_at 1 (filter_map (λ v. as_table (view v)) items.now) ≡ Ok fronts.items) }
    ensures fault { IfErr result (λ e. e ≢ ConfigFault.Want
        → entries front_at 1 (filter_map (λ v. as_table (view v)) items.now) ≡ Err e) }
{
    let mut fronts = Vec::new(alloc);
    for item in items {
        if let Some(table) = item.as_table() {
            let number = fronts.len() as u16 + 1;
            match front_at(table, number) {
                Ok(front) => fronts.push(front)?,
                Err(fault) => return Err(fault),
            }
        }
    }
    Ok(fronts)
}

/// Returns the front ends of an array.
#[tactic(auto, unfolding(crate::specs::Config::fronts_in))]
pub(crate) fn fronts_in(alloc: Global, items: &[Value]) -> Result<Vec<Front>, ConfigFault>
    ensures ok { IfOk result (λ fronts. fronts_in (map view items.now) ≡ Ok fronts.items) }
    ensures fault { IfErr result (λ e. e ≢ ConfigFault.Want
        → fronts_in (map view items.now) ≡ Err e) }
{
    check_tables(items, ConfigKey::top(ConfigName::Frontend), 1, 16)?;
    read_fronts(alloc, items)
}
