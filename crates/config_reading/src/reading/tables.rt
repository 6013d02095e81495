//! Tables and their keys.
ghost use Rattle.std.specs.Prelude.{◌≡◌, IfErr, IfOk, None, Some, map, option_map};
ghost use Rattle.std.specs.List.{list_any};
ghost use Rattle.config_reading.specs.Faults.{key_text};
ghost use Rattle.config_reading.specs.Reads.{Reads, seen};
ghost use Rattle.config_reading.specs.Texts.{is_same_text};
ghost use Rattle.config_reading.specs.Walk.{counted, has_only, table_of, tables_of, value_at};
ghost use Rattle.toml.specs.View.{table_view, view};

use crate::fault::{ConfigFault, Key};
use std::alloc::Global;
use toml::{Table, Value};

/// The value of a key, if it is present.
pub(crate) fn value_at(table: &Table, key: Key) -> Option<&Value>
    ensures { option_map (λ value. view value.now) result ≡ value_at key (table_view table.now) }
{
    table.get(key.name())
}

/// The value of a required key.
pub fn required(table: &Table, key: Key) -> Result<&Value, ConfigFault>
    ensures value { IfOk result (λ value. value_at key (table_view table.now) ≡ Some (view value.now)) }
    ensures missing { IfErr result (λ fault. value_at key (table_view table.now) ≡ None) }
    ensures fault { IfErr result (λ fault. fault ≡ ConfigFault.MissingKey key) }
{
    match value_at(table, key) {
        Some(value) => Ok(value),
        None => Err(ConfigFault::MissingKey(key)),
    }
}

/// Whether a table has no keys but these.
pub fn has_only(table: &Table, keys: &[Key]) -> bool
    ensures { result ≡ has_only keys.now (table_view table.now) }
{
    table.keys().all(|name| is_one_of(name.as_str(), keys))
}

fn is_one_of(name: &str, keys: &[Key]) -> bool
    ensures { result ≡ list_any (λ known. is_same_text (key_text known) name.now) keys.now }
{
    keys.iter().any(|key| key.name() == name)
}

/// The value as a table; `WrongType` for the key where it is not one.
pub fn table_of(value: &Value, key: Key) -> Result<&Table, ConfigFault>
    ensures { seen (λ table. table_view table.now) result ≡ table_of key (view value.now) }
{
    match value.as_table() {
        Some(table) => Ok(table),
        None => Err(ConfigFault::WrongType(key)),
    }
}

/// The tables of an array, whose number is from `least` to `most`. `WrongType` where the value isn't an array of
/// tables, `OutOfRange` where there are fewer or more.
pub fn counted(
    alloc: Global,
    value: &Value,
    key: Key,
    least: usize,
    most: usize,
) -> Result<Vec<&Table>, ConfigFault>
    ensures { Reads (λ tables. map (λ table. table_view table.now) tables.items)
        result (counted key least most (view value.now)) }
{
    let tables = tables_of(alloc, value, key)?;
    if !(least..=most).contains(&tables.len()) {
        return Err(ConfigFault::OutOfRange(key));
    }
    Ok(tables)
}

fn tables_of(alloc: Global, value: &Value, key: Key) -> Result<Vec<&Table>, ConfigFault>
    ensures { Reads (λ tables. map (λ table. table_view table.now) tables.items)
        result (tables_of key (view value.now)) }
{
    let Some(items) = value.as_array() else {
        return Err(ConfigFault::WrongType(key));
    };
    let mut tables = Vec::new(alloc);
    for item in items {
        tables.push(table_of(item, key)?)?;
    }
    Ok(tables)
}
