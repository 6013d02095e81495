//! Numbers in their ranges.
ghost use Rattle.std.specs.Prelude.{◌≡◌, ◌≤◌, IfOk};
ghost use Rattle.config_reading.specs.Walk.{number_at, number_of};
ghost use Rattle.toml.specs.View.{table_view, view};

use crate::fault::{ConfigFault, Key};
use crate::reading::tables::required;
use toml::{Table, Value};

/// The number at a key, from `least` to `most`.
pub(crate) fn number_at(table: &Table, key: Key, least: u64, most: u64) -> Result<u64, ConfigFault>
    ensures number { result ≡ number_at key least most (table_view table.now) }
    ensures least { IfOk result (λ number. least ≤ number) }
    ensures most { IfOk result (λ number. number ≤ most) }
{
    number_of(required(table, key)?, key, least, most)
}

fn number_of(value: &Value, key: Key, least: u64, most: u64) -> Result<u64, ConfigFault>
    ensures number { result ≡ number_of key least most (view value.now) }
    ensures least { IfOk result (λ number. least ≤ number) }
    ensures most { IfOk result (λ number. number ≤ most) }
{
    let Some(number) = value.as_integer() else {
        return Err(ConfigFault::WrongType(key));
    };
    match u64::try_from(number) {
        Ok(number) if (least..=most).contains(&number) => Ok(number),
        _ => Err(ConfigFault::OutOfRange(key)),
    }
}
