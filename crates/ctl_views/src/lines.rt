//! Reads single lines of a status.
use crate::events::{Transaction, transaction_in};
use crate::fields::{number_in, text_in, value_of};
use json::{Scratch, Value};
use station_names::{kind, member, word};
use std::alloc::{AllocError, Global};

/// What a line of a status says to a client that sends files.
#[derive(Drop)]
pub enum StatusLine {
    /// The name of a user.
    User(String),
    /// The ID of a remote entity.
    Remote(u64),
    /// The progress of a file that is being sent.
    Sending(Progress),
    /// Anything else.
    Other,
}

/// The progress of a file that is being sent.
#[derive(Clone, Copy)]
pub struct Progress {
    pub source: u64,
    pub seq: u64,
    pub octets: u64,
    pub size: u64,
}

/// Reads a line of a status.
pub fn read_status_line(alloc: Global, line: &str) -> Result<StatusLine, AllocError> {
    let mut scratch = Scratch::new(alloc);
    match value_of(alloc, line, &mut scratch)? {
        Some(value) => line_of(alloc, &value),
        None => Ok(StatusLine::Other),
    }
}

fn line_of(alloc: Global, value: &Value<'_>) -> Result<StatusLine, AllocError> {
    let (name, id) = (text_in(value, member::NAME), number_in(value, member::ID));
    match (text_in(value, member::KIND), name, id) {
        (Some(kind::USER), Some(name), _) => Ok(StatusLine::User(String::from_str(alloc, name)?)),
        (Some(kind::REMOTE), _, Some(id)) => Ok(StatusLine::Remote(id)),
        (Some(kind::TRANSACTION), _, _) => Ok(sending_in(value).unwrap_or(StatusLine::Other)),
        _ => Ok(StatusLine::Other),
    }
}

fn sending_in(value: &Value<'_>) -> Option<StatusLine> {
    if text_in(value, member::ROLE) != Some(word::SENDER) {
        return None;
    }
    let Transaction { source, seq } = transaction_in(value)?;
    let octets = number_in(value, member::OCTETS)?;
    let size = number_in(value, member::SIZE)?;
    Some(StatusLine::Sending(Progress {
        source,
        seq,
        octets,
        size,
    }))
}
