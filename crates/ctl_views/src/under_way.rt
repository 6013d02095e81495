//! Files that a server has, found in its status or its outbox.
use crate::events::{Transaction, transaction_in};
use crate::fields::{number_in, text_in, value_of};
use json::{Scratch, Value};
use station_names::{kind, member, word};
use std::alloc::{AllocError, Global};

/// A file that waits in the outbox, or that is being sent.
#[derive(Drop)]
pub struct UnderWay {
    /// Its name at its source: its path, as it was given.
    pub file: String,
    /// The entity that receives it.
    pub remote: u64,
    pub place: Place,
}

/// Where such a file is.
#[derive(Clone, Copy)]
pub enum Place {
    /// In the outbox, with this number.
    Queued(u64),
    /// In this transaction.
    Sent(Transaction),
}

/// The file that a line of a status or an outbox reports as waiting or being sent; `None` for any other line, and for a
/// file whose name isn't UTF-8.
pub fn read_under_way(alloc: Global, line: &str) -> Result<Option<UnderWay>, AllocError> {
    let mut scratch = Scratch::new(alloc);
    let Some(value) = value_of(alloc, line, &mut scratch)? else {
        return Ok(None);
    };
    let (Some(file), Some(remote), Some(place)) = (
        text_in(&value, member::FILE),
        remote_in(&value),
        place_in(&value),
    ) else {
        return Ok(None);
    };
    Ok(Some(UnderWay {
        file: String::from_str(alloc, file)?,
        remote,
        place,
    }))
}

fn remote_in(value: &Value<'_>) -> Option<u64> {
    match text_in(value, member::KIND) {
        Some(kind::QUEUED) => number_in(value, member::DESTINATION),
        _ => number_in(value, member::PEER),
    }
}

fn place_in(value: &Value<'_>) -> Option<Place> {
    match (text_in(value, member::KIND), text_in(value, member::ROLE)) {
        (Some(kind::QUEUED), _) => Some(Place::Queued(number_in(value, member::NUMBER)?)),
        (Some(kind::TRANSACTION), Some(word::SENDER)) => sent_in(value),
        _ => None,
    }
}

fn sent_in(value: &Value<'_>) -> Option<Place> {
    match text_in(value, member::STATE) {
        Some(word::ENDED) => None,
        _ => Some(Place::Sent(transaction_in(value)?)),
    }
}
