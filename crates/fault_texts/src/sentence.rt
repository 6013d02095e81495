//! The sentence on a fault of a configuration, by its place in the text.
use crate::allowed::{allowed_at, remedy};
use crate::{Place, Spot, push_handlers};
use config_reading::ConfigFault;
use std::alloc::AllocError;

/// Adds what is wrong with a configuration, where, what was found there, and what is allowed. It has no line feed.
pub fn push_sentence(
    text: &mut String,
    place: &Place,
    fault: ConfigFault,
) -> Result<(), AllocError> {
    if let Some(line) = place.line {
        write!(text, "line {line}: ")?;
    }
    write!(text, "{fault}")?;
    push_table(text, place)?;
    if !place.key.is_empty() {
        text.push_str("; key: `")?;
        push_visible(text, place.key.as_str())?;
        text.push_str("`")?;
    }
    if !place.found.is_empty() {
        write!(text, "; found: {}", place.found)?;
    }
    push_allowed(text, place, fault)
}

// Adds a key in one line.
fn push_visible(text: &mut String, key: &str) -> Result<(), AllocError> {
    for letter in key.chars() {
        text.push(if letter.is_control() { '?' } else { letter })?;
    }
    Ok(())
}

// Adds which table it is.
fn push_table(text: &mut String, place: &Place) -> Result<(), AllocError> {
    match place.spot {
        Spot::Top => return Ok(()),
        Spot::Entity => text.push_str("; table: [entity]")?,
        Spot::User(number) => write!(text, "; table: [[user]] number {}", ordinal(number))?,
        Spot::Remote(number) => write!(text, "; table: [[remote]] number {}", ordinal(number))?,
    }
    match (place.spot, place.id) {
        (Spot::Remote(_), Some(id)) => write!(text, ", of entity {id}"),
        _ => Ok(()),
    }
}

// The number of a table that is counted from 0, counted from 1.
fn ordinal(number: usize) -> usize {
    number.saturating_add(1)
}

// Adds what is allowed there, or how to repair it.
fn push_allowed(text: &mut String, place: &Place, fault: ConfigFault) -> Result<(), AllocError> {
    match fault {
        ConfigFault::OutOfRange(key) | ConfigFault::WrongType(key) => {
            if place.key.as_str() == key.name() {
                text.push_str(allowed_at(key))
            } else {
                push_words(text, place)
            }
        }
        ConfigFault::MissingKey(key) => text.push_str(allowed_at(key)),
        ConfigFault::HandlerNotAllowed(_) => push_words(text, place),
        _ => text.push_str(remedy(fault)),
    }
}

// Adds the handlers that are allowed, or that no such condition exists.
fn push_words(text: &mut String, place: &Place) -> Result<(), AllocError> {
    text.push_str("; allowed: ")?;
    let before = text.len();
    push_handlers(text, place.key.as_str())?;
    if text.len() == before {
        text.push_str("the conditions in the manual's table of handlers")?;
    }
    Ok(())
}
