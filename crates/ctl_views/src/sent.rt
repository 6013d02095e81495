//! Files of transactions, in lines of a status and in events.
use crate::events::{Transaction, transaction_in};
use crate::fields::{moment_in, number_in, text_in, value_of};
use json::{Scratch, Value};
use station_names::{kind, member, word};
use std::alloc::{AllocError, Global};

/// What a line says of a file.
#[derive(Clone, Copy)]
pub enum About {
    /// It was read to be sent, at a moment.
    Put(u64),
    /// It is being sent, or was; true while its transaction is under way.
    Sent(bool),
    /// It is being received, or was.
    Received,
}

/// The file of a transaction, as a line has it.
#[derive(Drop)]
pub struct FileLine {
    pub transaction: Transaction,
    pub about: About,
    pub user: String,
    /// The entity at the other end.
    pub remote: u64,
    /// 1 or 2.
    pub class: u64,
    /// Its path in a `Put`, and else its name at its source.
    pub file: String,
    /// Its name at its destination.
    pub to: String,
    pub size: u64,
}

/// Reads a line of a status or the JSON of an event; `None` if it says nothing of a transaction's file, or if one of
/// the file's names isn't UTF-8.
pub fn read_file_line(alloc: Global, line: &str) -> Result<Option<FileLine>, AllocError> {
    let mut scratch = Scratch::new(alloc);
    match value_of(alloc, line, &mut scratch)? {
        Some(value) => file_line_of(alloc, &value),
        None => Ok(None),
    }
}

fn file_line_of(alloc: Global, value: &Value<'_>) -> Result<Option<FileLine>, AllocError> {
    let (Some(about), Some(transaction), Some(remote)) = (
        about_in(value),
        transaction_in(value),
        number_in(value, member::PEER),
    ) else {
        return Ok(None);
    };
    let (Some(file), Some(to), Some(user)) = (
        text_in(value, member::FILE),
        text_in(value, member::TO),
        text_in(value, member::USER),
    ) else {
        return Ok(None);
    };
    Ok(Some(FileLine {
        transaction,
        about,
        user: String::from_str(alloc, user)?,
        remote,
        class: number_in(value, member::CLASS).unwrap_or(2),
        file: String::from_str(alloc, file)?,
        to: String::from_str(alloc, to)?,
        size: number_in(value, member::SIZE).unwrap_or(0),
    }))
}

fn about_in(value: &Value<'_>) -> Option<About> {
    match (text_in(value, member::KIND), text_in(value, member::ROLE)) {
        (Some(kind::PUT), _) => Some(About::Put(moment_in(value, member::AT)?)),
        (Some(kind::TRANSACTION), Some(word::SENDER)) => {
            Some(About::Sent(text_in(value, member::STATE) != Some(word::ENDED)))
        }
        (Some(kind::TRANSACTION), _) => Some(About::Received),
        _ => None,
    }
}
