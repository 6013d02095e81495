//! Which key of a table has a fault, and what is allowed there.
use crate::spot::Spot;
use cfdp_types::{Condition, Handler, Role};
use config_reading::{ConfigFault, ENTITY_KEYS, HANDLER_KEYS, Key, REMOTE_KEYS, cancelling};
use std::alloc::AllocError;
use toml::Table;

const TABLE_KEYS: [Key; 3] = [Key::Entity, Key::User, Key::Remote];

const ROLES: [Role; 3] = [Role::Send, Role::RecvOne, Role::RecvTwo];

const HANDLERS: [Handler; 4] = [
    Handler::Cancel,
    Handler::Suspend,
    Handler::Ignore,
    Handler::Abandon,
];

/// Adds the first key of a table that isn't known there.
pub(crate) fn push_unknown(text: &mut String, table: &Table, spot: Spot) -> Result<(), AllocError> {
    match spot {
        Spot::Top => push_other(text, table, &TABLE_KEYS),
        Spot::Entity => push_other(text, table, &ENTITY_KEYS),
        Spot::User(_) => push_other(text, table, &[Key::Name]),
        Spot::Remote(_) => push_other(text, table, &REMOTE_KEYS),
    }
}

// Adds the first key of a table that isn't one of these.
fn push_other(text: &mut String, table: &Table, known: &[Key]) -> Result<(), AllocError> {
    for name in table.keys() {
        if !is_among(name.as_str(), known) {
            return text.push_str(name.as_str());
        }
    }
    Ok(())
}

fn is_among(name: &str, keys: &[Key]) -> bool {
    for key in keys {
        if key.name() == name {
            return true;
        }
    }
    false
}

/// Adds the key that a fault is about. A handler's key comes after its table's, as in `send.nak_limit`.
pub(crate) fn push_key(
    text: &mut String,
    table: &Table,
    fault: ConfigFault,
) -> Result<(), AllocError> {
    match fault {
        ConfigFault::MissingKey(key) | ConfigFault::OutOfRange(key) => text.push_str(key.name()),
        ConfigFault::WrongType(key) => push_wrong_type(text, table, key),
        ConfigFault::HandlerNotAllowed(key) => push_handler(text, table, key),
        ConfigFault::DuplicateUser => text.push_str("name"),
        ConfigFault::DuplicateRemote => text.push_str("id"),
        ConfigFault::UnknownUser | ConfigFault::TooManySources => text.push_str("user"),
        ConfigFault::BadAddress => text.push_str("address"),
        ConfigFault::BadToml | ConfigFault::UnknownKey(_) | ConfigFault::NoMemory => Ok(()),
    }
}

// Adds a key whose value has the wrong type. A handler's key is looked for in each table of handlers.
fn push_wrong_type(text: &mut String, table: &Table, key: Key) -> Result<(), AllocError> {
    if condition_of(key).is_none() {
        return text.push_str(key.name());
    }
    for role in ROLES {
        let outer = Key::of_table(role);
        if is_no_text(table, outer, key) {
            return write!(text, "{}.{}", outer.name(), key.name());
        }
    }
    text.push_str(key.name())
}

// Whether the value that a table of handlers has at a key isn't a text; false if it has none.
fn is_no_text(table: &Table, outer: Key, key: Key) -> bool {
    let Some(handlers) = handlers_in(table, outer) else {
        return false;
    };
    match handlers.get(key.name()) {
        Some(value) => !value.is_str(),
        None => false,
    }
}

fn handlers_in(table: &Table, outer: Key) -> Option<&Table> {
    table.get(outer.name())?.as_table()
}

// Adds the first key that is not a known condition, or else the key of the first handler that isn't known or allowed.
fn push_handler(text: &mut String, table: &Table, outer: Key) -> Result<(), AllocError> {
    text.push_str(outer.name())?;
    let Some(handlers) = handlers_in(table, outer) else {
        return Ok(());
    };
    let before = text.len();
    text.push_str(".")?;
    push_other(text, handlers, &HANDLER_KEYS)?;
    if text.len() > before.saturating_add(1) {
        return Ok(());
    }
    for key in HANDLER_KEYS {
        if !is_allowed(handlers, outer, key) {
            return text.push_str(key.name());
        }
    }
    Ok(())
}

// Whether the handler that a table has at a key, if any, is one of those that it may have.
fn is_allowed(handlers: &Table, outer: Key, key: Key) -> bool {
    let Some(value) = handlers.get(key.name()) else {
        return true;
    };
    let Some(word) = value.as_str() else {
        return true;
    };
    for handler in HANDLERS {
        if word_of(handler) == word {
            return may_have(outer, key, handler);
        }
    }
    false
}

// Whether the table of handlers may have this handler at a key.
fn may_have(outer: Key, key: Key, handler: Handler) -> bool {
    let Some(condition) = condition_of(key) else {
        return false;
    };
    for role in ROLES {
        if Key::of_table(role) == outer {
            return cancelling(role).with(condition, handler).is_ok();
        }
    }
    false
}

/// Adds the handlers allowed at a key such as `send.nak_limit`. Adds nothing if no such key is known.
pub fn push_handlers(text: &mut String, path: &str) -> Result<(), AllocError> {
    match keys_of(path) {
        Some((table, key)) => push_allowed(text, table, key),
        None => Ok(()),
    }
}

// The table of handlers that a path names, and the key in it.
fn keys_of(path: &str) -> Option<(Key, Key)> {
    let (outer, inner) = path.split_once('.')?;
    Some((table_named(outer)?, condition_named(inner)?))
}

fn table_named(name: &str) -> Option<Key> {
    for role in ROLES {
        let table = Key::of_table(role);
        if table.name() == name {
            return Some(table);
        }
    }
    None
}

fn condition_named(name: &str) -> Option<Key> {
    for key in HANDLER_KEYS {
        if key.name() == name {
            return Some(key);
        }
    }
    None
}

// Adds the handlers that a table of handlers may have at a key.
fn push_allowed(text: &mut String, table: Key, key: Key) -> Result<(), AllocError> {
    let mut between = "";
    for handler in HANDLERS {
        if may_have(table, key, handler) {
            let word = word_of(handler);
            write!(text, "{between}\"{word}\"")?;
            between = ", ";
        }
    }
    Ok(())
}

fn word_of(handler: Handler) -> &'static str {
    match handler {
        Handler::Cancel => "cancel",
        Handler::Suspend => "suspend",
        Handler::Ignore => "ignore",
        Handler::Abandon => "abandon",
    }
}

// The condition that a handler's key is about.
fn condition_of(key: Key) -> Option<Condition> {
    match key {
        Key::PositiveAckLimit => Some(Condition::POSITIVE_ACK_LIMIT),
        Key::FilestoreRejection => Some(Condition::FILESTORE_REJECTION),
        Key::ChecksumFailure => Some(Condition::FILE_CHECKSUM_FAILURE),
        Key::FileSizeError => Some(Condition::FILE_SIZE_ERROR),
        Key::NakLimitReached => Some(Condition::NAK_LIMIT),
        Key::Inactivity => Some(Condition::INACTIVITY),
        Key::CheckLimitReached => Some(Condition::CHECK_LIMIT),
        Key::UnsupportedChecksum => Some(Condition::UNSUPPORTED_CHECKSUM_TYPE),
        _ => None,
    }
}
