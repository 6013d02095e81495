//! Counts what the lines of a status say.
use crate::health::Health;
use json::{Error, Scratch, Value};
use station_names::{kind, member, word};
use std::alloc::{AllocError, Global};

/// What the lines of a status say. `failed` are those lines of it that are shown if only transactions that failed are.
pub fn health_in(alloc: Global, lines: &str, failed: &str) -> Result<Health, AllocError> {
    let mut health = Health {
        held: 0,
        failed: 0,
        unstored: 0,
        to_send: 0,
        is_log_failing: false,
    };
    for line in lines.split('\n') {
        add_line(alloc, &mut health, line)?;
    }
    for line in failed.split('\n') {
        if is_transaction(alloc, line)? {
            health.failed = health.failed.saturating_add(1);
        }
    }
    Ok(health)
}

fn add_line(alloc: Global, health: &mut Health, line: &str) -> Result<(), AllocError> {
    let mut scratch = Scratch::new(alloc);
    if let Some(value) = value_of(alloc, line, &mut scratch)? {
        add(health, &value);
    }
    Ok(())
}

fn add(health: &mut Health, value: &Value<'_>) {
    let of_kind = text_in(value, member::KIND);
    if of_kind == Some(kind::REMOTE) && is_set(value, member::HELD) {
        health.held = health.held.saturating_add(1);
    }
    if of_kind == Some(kind::STORING) && text_in(value, member::WHY).is_some() {
        health.unstored = health.unstored.saturating_add(1);
    }
    if of_kind == Some(kind::QUEUED) || is_being_sent(value) {
        health.to_send = health.to_send.saturating_add(1);
    }
    if of_kind == Some(kind::LOG) && is_set(value, member::FAILING) {
        health.is_log_failing = true;
    }
}

// Whether a line is about a file being sent.
fn is_being_sent(value: &Value<'_>) -> bool {
    text_in(value, member::KIND) == Some(kind::TRANSACTION)
        && text_in(value, member::ROLE) == Some(word::SENDER)
        && text_in(value, member::STATE) != Some(word::ENDED)
}

// Whether a line is about a transaction.
fn is_transaction(alloc: Global, line: &str) -> Result<bool, AllocError> {
    let mut scratch = Scratch::new(alloc);
    match value_of(alloc, line, &mut scratch)? {
        Some(value) => Ok(text_in(&value, member::KIND) == Some(kind::TRANSACTION)),
        None => Ok(false),
    }
}

// Parses a line; `None` where it is not JSON.
fn value_of<'a>(
    alloc: Global,
    line: &'a str,
    scratch: &'a mut Scratch,
) -> Result<Option<Value<'a>>, AllocError> {
    scratch.reserve(line.len())?;
    match Value::parse(alloc, line, scratch) {
        Ok(value) => Ok(Some(value)),
        Err(Error::OutOfMemory) => Err(AllocError),
        Err(_) => Ok(None),
    }
}

fn text_in<'a>(value: &Value<'a>, name: &str) -> Option<&'a str> {
    value.get(name)?.as_str()
}

fn is_set(value: &Value<'_>, name: &str) -> bool {
    match value.get(name) {
        Some(member) => member.as_bool() == Some(true),
        None => false,
    }
}
