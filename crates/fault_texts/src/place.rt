//! The place of a fault: its table, its key, its line, what is found there, and what is allowed.
use crate::keys::{push_key, push_unknown};
use crate::lines::line_of;
use crate::scan::Sought;
use crate::spot::{Spot, spot_in};
use crate::values::push_value;
use config_reading::ConfigFault;
use std::alloc::{AllocError, Global};
use toml::{Table, Value};

/// Where a configuration has its fault.
#[derive(Debug, Drop)]
pub struct Place {
    pub spot: Spot,
    /// The ID of the entity that the table is about, if it has one that is a number.
    pub id: Option<i64>,
    /// The key in that table, such as `ack_ms` or `send.nak_limit`; empty if the fault isn't about a key.
    pub key: String,
    /// The line of the text, counted from 1: that of the key, or of the table where the key should be.
    pub line: Option<u64>,
    /// The value at the key, as it is written in TOML; empty if there is none.
    pub found: String,
}

/// The place of a fault that reading this text reported.
pub fn place_of(alloc: Global, text: &str, fault: ConfigFault) -> Result<Place, AllocError> {
    match toml::table_from_str(alloc, text) {
        Ok(top) => place_among(alloc, text, &top, fault),
        Err(error) => match error.span() {
            Some(span) => Ok(nowhere(alloc, Some(line_at(text, span.start)))),
            None => Ok(nowhere(alloc, None)),
        },
    }
}

/// The place of a fault that reading a table of a text reported.
pub fn place_among(
    alloc: Global,
    text: &str,
    top: &Table,
    fault: ConfigFault,
) -> Result<Place, AllocError> {
    match spot_in(alloc, top)? {
        Some(spot) => place_in(alloc, text, top, spot, fault),
        None => Ok(nowhere(alloc, None)),
    }
}

// A place of which at most the line is known.
fn nowhere(alloc: Global, line: Option<u64>) -> Place {
    Place {
        spot: Spot::Top,
        id: None,
        key: String::new(alloc),
        line,
        found: String::new(alloc),
    }
}

// The line of an octet, counted from 1.
fn line_at(text: &str, offset: usize) -> u64 {
    let mut line = 1u64;
    for octet in text.as_bytes().iter().take(offset) {
        if *octet == b'\n' {
            line = line.saturating_add(1);
        }
    }
    line
}

fn place_in(
    alloc: Global,
    text: &str,
    top: &Table,
    spot: Spot,
    fault: ConfigFault,
) -> Result<Place, AllocError> {
    let mut place = nowhere(alloc, None);
    place.spot = spot;
    let table = table_at(top, spot);
    if let Some(table) = table {
        place.id = id_in(table);
        match fault {
            ConfigFault::UnknownKey(_) => push_unknown(&mut place.key, table, spot)?,
            _ => push_key(&mut place.key, table, fault)?,
        }
        if let Some(value) = value_in(table, place.key.as_str()) {
            push_value(&mut place.found, value)?;
        }
    }
    place.line = line_of_key(alloc, text, spot, place.key.as_str())?;
    Ok(place)
}

// The table of a spot.
fn table_at(top: &Table, spot: Spot) -> Option<&Table> {
    match spot {
        Spot::Top => Some(top),
        Spot::Entity => top.get("entity")?.as_table(),
        Spot::User(place) => top.get("user")?.as_array()?.get(place)?.as_table(),
        Spot::Remote(place) => top.get("remote")?.as_array()?.get(place)?.as_table(),
    }
}

// The ID in a table.
fn id_in(table: &Table) -> Option<i64> {
    table.get("id")?.as_integer()
}

// The value of a key, or of one in a table of handlers.
fn value_in<'t>(table: &'t Table, key: &str) -> Option<&'t Value> {
    if let Some(value) = table.get(key) {
        return Some(value);
    }
    let (outer, inner) = key.split_once('.')?;
    table.get(outer)?.as_table()?.get(inner)
}

// The line of a key in the table of a spot.
fn line_of_key(
    alloc: Global,
    text: &str,
    spot: Spot,
    key: &str,
) -> Result<Option<u64>, AllocError> {
    let (name, table) = match spot {
        Spot::Top => ("", 0),
        Spot::Entity => ("entity", 0),
        Spot::User(place) => ("user", (place as u64).saturating_add(1)),
        Spot::Remote(place) => ("remote", (place as u64).saturating_add(1)),
    };
    line_within(alloc, text, name, table, key)
}

/// The line of a key in a table, or that of the table if the key is empty or isn't there. If there are several tables of
/// that name, it is the one of this number, counted from 1.
pub fn line_within(
    alloc: Global,
    text: &str,
    name: &str,
    table: u64,
    key: &str,
) -> Result<Option<u64>, AllocError> {
    let mut path = String::from_str(alloc, name)?;
    if !name.is_empty() && !key.is_empty() {
        path.push_str(".")?;
    }
    push_unmarked(&mut path, key)?;
    let sought = Sought {
        path: path.as_bytes(),
        head: name.len(),
        table,
    };
    Ok(line_of(text, &sought))
}

// Adds a key without the blanks and quotes that a scan passes over.
fn push_unmarked(path: &mut String, key: &str) -> Result<(), AllocError> {
    for letter in key.chars() {
        if !matches!(letter, ' ' | '\t' | '\r' | '"' | '\'') {
            path.push(letter)?;
        }
    }
    Ok(())
}
