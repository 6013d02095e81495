//! The handler tables.
ghost use Rattle.std.specs.Prelude.{◌≡◌, IfOk};
ghost use Rattle.cfdp_types.specs.Params.{IsTableFor};
ghost use Rattle.cfdp_types.specs.Reference.{all_cancel};
ghost use Rattle.config_reading.specs.Faults.{table_key};
ghost use Rattle.config_reading.specs.Walk.{handler_at, handler_keys, handler_named, handlers_at, handlers_from, handlers_of, with_named};
ghost use Rattle.toml.specs.View.{table_view, view};

use crate::fault::{ConfigFault, Key};
use crate::reading::tables::{has_only, table_of, value_at};
use cfdp_types::{Condition, FaultTable, Handler, Role};
use toml::{Table, Value};

/// The keys of a table of handlers.
pub const HANDLER_KEYS: [Key; 8] = [
    Key::PositiveAckLimit,
    Key::FilestoreRejection,
    Key::ChecksumFailure,
    Key::FileSizeError,
    Key::NakLimitReached,
    Key::Inactivity,
    Key::CheckLimitReached,
    Key::UnsupportedChecksum,
];

/// The fault table of a role.
pub(crate) fn handlers_at(table: &Table, role: Role) -> Result<FaultTable, ConfigFault>
    ensures handlers { result ≡ handlers_at role (table_view table.now) }
    ensures role { IfOk result (IsTableFor role) }
{
    match value_at(table, Key::of_table(role)) {
        Some(value) => handlers_of(value, role),
        None => Ok(cancelling(role)),
    }
}

fn handlers_of(value: &Value, role: Role) -> Result<FaultTable, ConfigFault>
    ensures handlers { result ≡ handlers_of role (view value.now) }
    ensures role { IfOk result (IsTableFor role) }
{
    let table = table_of(value, Key::of_table(role))?;
    if !has_only(table, &HANDLER_KEYS) {
        return Err(ConfigFault::HandlerNotAllowed(Key::of_table(role)));
    }
    handlers_from(table, role)
}

fn handlers_from(table: &Table, role: Role) -> Result<FaultTable, ConfigFault>
    ensures handlers { result ≡ handlers_from (table_key role) role (table_view table.now) handler_keys (all_cancel role) }
    ensures role { IfOk result (IsTableFor role) }
{
    let handlers = cancelling(role);
    let handlers = handler_at(
        table,
        handlers,
        Key::PositiveAckLimit,
        Condition::POSITIVE_ACK_LIMIT,
    )?;
    let handlers = handler_at(
        table,
        handlers,
        Key::FilestoreRejection,
        Condition::FILESTORE_REJECTION,
    )?;
    let handlers = handler_at(
        table,
        handlers,
        Key::ChecksumFailure,
        Condition::FILE_CHECKSUM_FAILURE,
    )?;
    let handlers = handler_at(
        table,
        handlers,
        Key::FileSizeError,
        Condition::FILE_SIZE_ERROR,
    )?;
    let handlers = handler_at(table, handlers, Key::NakLimitReached, Condition::NAK_LIMIT)?;
    let handlers = handler_at(table, handlers, Key::Inactivity, Condition::INACTIVITY)?;
    let handlers = handler_at(
        table,
        handlers,
        Key::CheckLimitReached,
        Condition::CHECK_LIMIT,
    )?;
    handler_at(
        table,
        handlers,
        Key::UnsupportedChecksum,
        Condition::UNSUPPORTED_CHECKSUM_TYPE,
    )
}

// The fault table with the handler that a key names; unchanged where the key is absent.
fn handler_at(
    table: &Table,
    handlers: FaultTable,
    key: Key,
    condition: Condition,
) -> Result<FaultTable, ConfigFault>
    ensures handlers { result
        ≡ handler_at (table_key handlers.role) handlers.role (table_view table.now) key condition handlers }
    ensures role { IfOk result (λ changed. changed.role ≡ handlers.role) }
{
    let Some(value) = value_at(table, key) else {
        return Ok(handlers);
    };
    let Some(word) = value.as_str() else {
        return Err(ConfigFault::WrongType(key));
    };
    with_named(handlers, condition, word)
}

fn with_named(
    handlers: FaultTable,
    condition: Condition,
    word: &str,
) -> Result<FaultTable, ConfigFault>
    ensures handlers { result
        ≡ with_named (table_key handlers.role) handlers.role condition handlers (handler_named word.now) }
    ensures role { IfOk result (λ changed. changed.role ≡ handlers.role) }
{
    let refused = ConfigFault::HandlerNotAllowed(Key::of_table(handlers.role()));
    let Some(handler) = handler_named(word) else {
        return Err(refused);
    };
    match handlers.with(condition, handler) {
        Ok(changed) => Ok(changed),
        Err(_) => Err(refused),
    }
}

fn handler_named(word: &str) -> Option<Handler>
    ensures { result ≡ handler_named word.now }
{
    if word == "cancel" {
        Some(Handler::Cancel)
    } else if word == "suspend" {
        Some(Handler::Suspend)
    } else if word == "ignore" {
        Some(Handler::Ignore)
    } else if word == "abandon" {
        Some(Handler::Abandon)
    } else {
        None
    }
}

/// The fault table of a role in which every fault cancels.
pub fn cancelling(role: Role) -> FaultTable
    ensures { result ≡ all_cancel role }
{
    FaultTable::new(role, &[]).unwrap()
}
