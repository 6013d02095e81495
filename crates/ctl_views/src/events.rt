//! Reads events for programs that show them or wait for them.
use crate::ends::{End, end_in};
use crate::fields::{number_in, text_in, value_of};
use crate::page::Tone;
use crate::telling::{push_head, push_words, tone_of};
use json::{Scratch, Value};
use station_names::{kind, member};
use std::alloc::{AllocError, Global};

/// What an event reports about a file of the outbox.
#[derive(Clone, Copy)]
pub enum Step {
    /// The file with this number is being sent, by the event's transaction.
    Started(u64),
    /// The file with this number won't be sent.
    Unsent(u64),
    /// The transaction of the event has ended.
    Ended(End),
    /// Anything else.
    Other,
}

/// An event.
#[derive(Drop)]
pub struct Event {
    /// The user that the event is about, if it is about one.
    pub user: Option<String>,
    /// The transaction that the event is about, if it is about one.
    pub transaction: Option<Transaction>,
    /// What the event reports about a file of the outbox.
    pub step: Step,
    /// The tone in which the event is shown.
    pub tone: Tone,
    /// The event's moment, and its user and transaction if it has them.
    pub head: String,
    /// What happened, in words.
    pub words: String,
}

/// A transaction ID.
#[derive(Clone, Copy)]
pub struct Transaction {
    pub source: u64,
    pub seq: u64,
}

/// Reads an event from the JSON of its line; `None` where that is not a JSON object.
pub fn read_event(alloc: Global, line: &str) -> Result<Option<Event>, AllocError> {
    let mut scratch = Scratch::new(alloc);
    match value_of(alloc, line, &mut scratch)? {
        Some(value) if matches!(value, Value::Object(_)) => Ok(Some(event_of(alloc, &value)?)),
        _ => Ok(None),
    }
}

fn event_of(alloc: Global, value: &Value<'_>) -> Result<Event, AllocError> {
    let user = user_of(alloc, value)?;
    let mut head = String::new(alloc);
    push_head(&mut head, value)?;
    let mut words = String::new(alloc);
    push_words(alloc, &mut words, value)?;
    Ok(Event {
        user,
        transaction: transaction_in(value),
        step: step_of(value),
        tone: tone_of(value),
        head,
        words,
    })
}

fn user_of(alloc: Global, value: &Value<'_>) -> Result<Option<String>, AllocError> {
    match text_in(value, member::USER) {
        Some(name) => Ok(Some(String::from_str(alloc, name)?)),
        None => Ok(None),
    }
}

/// The transaction that an event is about.
pub(crate) fn transaction_in(value: &Value<'_>) -> Option<Transaction> {
    let source = number_in(value, member::SOURCE)?;
    let seq = number_in(value, member::SEQ)?;
    Some(Transaction { source, seq })
}

fn step_of(value: &Value<'_>) -> Step {
    match (
        text_in(value, member::KIND),
        number_in(value, member::QUEUED),
    ) {
        (Some(kind::PUT), Some(number)) => Step::Started(number),
        (Some(kind::UNSENT), Some(number)) => Step::Unsent(number),
        (Some(kind::INDICATION), _) if is_end(value) => {
            Step::Ended(end_in(value).unwrap_or(End::Lost))
        }
        _ => Step::Other,
    }
}

// Whether an indication is the last of its transaction.
fn is_end(value: &Value<'_>) -> bool {
    matches!(
        text_in(value, member::NAME),
        Some("Transaction-Finished" | "Abandoned")
    )
}
