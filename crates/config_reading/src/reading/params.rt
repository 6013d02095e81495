//! The parameters of a remote entity.
ghost use Rattle.std.specs.Prelude.{◌≡◌, IfOk, IsTrue};
ghost use Rattle.cfdp_types.specs.Params.{AreExpirationLimits, AreFaultTables, AreTimerLengths, IsExpirationLimit, IsTimerLength};
ghost use Rattle.config_reading.specs.Values.{is_entity};
ghost use Rattle.config_reading.specs.Walk.{checksum_at, checksum_named, checksum_of, limits_in, number_at, params_in, tables_in, timers_in};
ghost use Rattle.toml.specs.View.{table_view, view};

use crate::entity::EntitySettings;
use crate::fault::{ConfigFault, Key};
use crate::reading::handlers::handlers_at;
use crate::reading::numbers::number_at;
use crate::reading::tables::value_at;
use cfdp_types::limits::{EXPIRATIONS, TIMER_MILLISECONDS};
use cfdp_types::{
    Checksum, ExpirationLimits, FaultTables, Params, ParamsParts, Role, TimerLengths,
};
use toml::{Table, Value};

/// The parameters of a remote entity, from its table.
pub(crate) fn params_in(table: &Table, entity: EntitySettings) -> Result<Params, ConfigFault>
    requires { IsTrue (is_entity entity) }
    ensures { result ≡ params_in entity (table_view table.now) }
{
    let timers = timers_in(table)?;
    let limits = limits_in(table)?;
    let tables = tables_in(table)?;
    let checksum = checksum_at(table)?;
    let params = Params::new(ParamsParts {
        local: entity.local,
        lengths: entity.lengths,
        segment_octets: entity.segment_octets,
        timers,
        limits,
        tables,
        checksum,
    });
    Ok(params.unwrap())
}

fn timers_in(table: &Table) -> Result<TimerLengths, ConfigFault>
    ensures timers { result ≡ timers_in (table_view table.now) }
    ensures range { IfOk result AreTimerLengths }
{
    Ok(TimerLengths {
        ack: timer_at(table, Key::AckMilliseconds)?,
        nak: timer_at(table, Key::NakMilliseconds)?,
        check: timer_at(table, Key::CheckMilliseconds)?,
        inactivity: timer_at(table, Key::InactivityMilliseconds)?,
    })
}

fn timer_at(table: &Table, key: Key) -> Result<u32, ConfigFault>
    ensures timer { result ≡ number_at key 1 TIMER_MILLISECONDS (table_view table.now) }
    ensures range { IfOk result IsTimerLength }
{
    Ok(number_at(table, key, 1, u64::from(TIMER_MILLISECONDS))? as u32)
}

fn limits_in(table: &Table) -> Result<ExpirationLimits, ConfigFault>
    ensures limits { result ≡ limits_in (table_view table.now) }
    ensures range { IfOk result AreExpirationLimits }
{
    Ok(ExpirationLimits {
        ack: limit_at(table, Key::AckLimit)?,
        nak: limit_at(table, Key::NakLimit)?,
        check: limit_at(table, Key::CheckLimit)?,
    })
}

fn limit_at(table: &Table, key: Key) -> Result<u8, ConfigFault>
    ensures limit { result ≡ number_at key 1 EXPIRATIONS (table_view table.now) }
    ensures range { IfOk result IsExpirationLimit }
{
    Ok(number_at(table, key, 1, u64::from(EXPIRATIONS))? as u8)
}

fn tables_in(table: &Table) -> Result<FaultTables, ConfigFault>
    ensures tables { result ≡ tables_in (table_view table.now) }
    ensures roles { IfOk result AreFaultTables }
{
    Ok(FaultTables {
        send: handlers_at(table, Role::Send)?,
        receive_one: handlers_at(table, Role::RecvOne)?,
        receive_two: handlers_at(table, Role::RecvTwo)?,
    })
}

// The checksum of the files that are sent to the remote entity: modular where the table names none.
fn checksum_at(table: &Table) -> Result<Checksum, ConfigFault>
    ensures { result ≡ checksum_at (table_view table.now) }
{
    match value_at(table, Key::Checksum) {
        Some(value) => checksum_of(value),
        None => Ok(Checksum::Modular),
    }
}

fn checksum_of(value: &Value) -> Result<Checksum, ConfigFault>
    ensures { result ≡ checksum_of (view value.now) }
{
    let Some(word) = value.as_str() else {
        return Err(ConfigFault::WrongType(Key::Checksum));
    };
    match checksum_named(word) {
        Some(checksum) => Ok(checksum),
        None => Err(ConfigFault::OutOfRange(Key::Checksum)),
    }
}

fn checksum_named(word: &str) -> Option<Checksum>
    ensures { result ≡ checksum_named word.now }
{
    if word == "modular" {
        Some(Checksum::Modular)
    } else if word == "null" {
        Some(Checksum::Null)
    } else {
        None
    }
}
