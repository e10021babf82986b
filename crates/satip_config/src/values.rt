//! The values of a table's keys: first whether a value has the right kind, then whether it is
//! allowed.
ghost use Rattle.std.specs.Prelude.{◌≡◌, ◌≤◌, Ok, Err, map, length, IfOk, IfSome, is_some, MatchResult, option_map};
ghost use Rattle.std.specs.List.{list_all, filter_map};
ghost use Rattle.toml.specs.Data.{as_integer, as_table};
ghost use Rattle.toml.specs.View.{view, table_view};
ghost use Rattle.satip_config.specs.Steps.{is_within};
ghost use Rattle.satip_config.specs.Values.{value_at, required, within, number, number_at, number_or, text_at, array, array_at, tables_in};

use crate::fault::ConfigFault;
use crate::key::ConfigKey;
use toml::{Table, Value};

/// Returns the value of a key, if there is one.
pub(crate) fn value_at(table: &Table, key: ConfigKey) -> Option<&Value>
    ensures value { option_map (λ v. view v.now) result ≡ value_at key (table_view table.now) }
{
    table.get(key.name.text())
}

/// Returns the value of a required key.
pub(crate) fn required(table: &Table, key: ConfigKey) -> Result<&Value, ConfigFault>
    ensures value { MatchResult result
        (λ v. required key (table_view table.now) ≡ Ok (view v.now))
        (λ e. required key (table_view table.now) ≡ Err e) }
{
    value_at(table, key).ok_or(ConfigFault::Shape(key))
}

/// Returns the number, if it is from `least` to `most`.
pub(crate) fn within(number: i64, least: u32, most: u32) -> Option<u32>
    ensures value { result ≡ within least most number }
    ensures range { IfSome result (λ n. n ≤ most) }
{
    match u32::try_from(number) {
        Ok(number) => {
            if least <= number && number <= most {
                Some(number)
            } else {
                None
            }
        }
        Err(_) => None,
    }
}

/// Returns the integer of a value, from `least` to `most`.
#[tactic(auto, unfolding(crate::specs::Values::number))]
fn number(value: &Value, key: ConfigKey, least: u32, most: u32) -> Result<u32, ConfigFault>
    ensures value { result ≡ number least most key (view value.now) }
    ensures range { IfOk result (λ n. n ≤ most) }
{
    let found = value.as_integer().ok_or(ConfigFault::Shape(key))?;
    within(found, least, most).ok_or(ConfigFault::Value(key))
}

/// Returns the integer of a required key.
#[tactic(auto, unfolding(crate::specs::Values::number_at))]
pub(crate) fn number_at(
    table: &Table,
    key: ConfigKey,
    least: u32,
    most: u32,
) -> Result<u32, ConfigFault>
    ensures value { result ≡ number_at least most key (table_view table.now) }
    ensures range { IfOk result (λ n. n ≤ most) }
{
    number(required(table, key)?, key, least, most)
}

/// Returns the integer of a key, or the default if the key is missing.
#[tactic(auto, unfolding(crate::specs::Values::number_or))]
pub(crate) fn number_or(
    table: &Table,
    key: ConfigKey,
    least: u32,
    most: u32,
    default: u32,
) -> Result<u32, ConfigFault>
    requires { default ≤ most }
    ensures value { result ≡ number_or default least most key (table_view table.now) }
    ensures range { IfOk result (λ n. n ≤ most) }
{
    match value_at(table, key) {
        Some(value) => number(value, key, least, most),
        None => Ok(default),
    }
}

/// Returns the string of a required key.
#[tactic(auto, unfolding(crate::specs::Values::text_at))]
pub(crate) fn text_at(table: &Table, key: ConfigKey) -> Result<&str, ConfigFault>
    ensures value { MatchResult result
        (λ s. text_at key (table_view table.now) ≡ Ok s.now)
        (λ e. text_at key (table_view table.now) ≡ Err e) }
{
    let value = required(table, key)?;
    value.as_str().ok_or(ConfigFault::Shape(key))
}

/// Returns the items of a value that is an array.
#[tactic(auto, unfolding(crate::specs::Values::array))]
pub(crate) fn array(value: &Value, key: ConfigKey) -> Result<&[Value], ConfigFault>
    ensures value { MatchResult result
        (λ items. array key (view value.now) ≡ Ok (map view items.now))
        (λ e. array key (view value.now) ≡ Err e) }
{
    match value.as_array() {
        Some(items) => Ok(items.as_slice()),
        None => Err(ConfigFault::Shape(key)),
    }
}

/// Returns the items of the array of a required key.
#[tactic(auto, unfolding(crate::specs::Values::array_at))]
pub(crate) fn array_at(table: &Table, key: ConfigKey) -> Result<&[Value], ConfigFault>
    ensures value { MatchResult result
        (λ items. array_at key (table_view table.now) ≡ Ok (map view items.now))
        (λ e. array_at key (table_view table.now) ≡ Err e) }
{
    array(required(table, key)?, key)
}

/// Returns whether there are from `least` to `most` items.
pub(crate) fn is_counted(items: &[Value], least: usize, most: usize) -> bool
    ensures value { result ≡ is_within least most (length items.now) }
{
    least <= items.len() && items.len() <= most
}

/// Returns whether all items are tables.
fn are_tables(items: &[Value]) -> bool
    ensures value { result ≡ list_all (λ v. is_some (as_table (view v))) items.now }
{
    items.iter().all(|item| item.is_table())
}

/// Checks that the items are from `least` to `most` tables.
#[tactic(auto, unfolding(crate::specs::Values::tables_in), using(crate::proofs::Lists::tables))]
pub(crate) fn check_tables(
    items: &[Value],
    key: ConfigKey,
    least: usize,
    most: usize,
) -> Result<(), ConfigFault>
    ensures value { MatchResult result
        (λ _. tables_in least most key (map view items.now)
        ≡ Ok (filter_map (λ v. as_table (view v)) items.now))
        (λ e. tables_in least most key (map view items.now) ≡ Err e) }
    ensures few { IfOk result (λ _. length items.now ≤ most) }
{
    if !are_tables(items) {
        return Err(ConfigFault::Shape(key));
    }
    if !is_counted(items, least, most) {
        return Err(ConfigFault::Value(key));
    }
    Ok(())
}
