//! Describes events in words.
use crate::ends::end_tone;
use crate::events::{Transaction, transaction_in};
use crate::fields::{number_in, text_in};
use crate::page::Tone;
use crate::parts::{NO_LOOK, Part, push_parts};
use crate::words::{event_words, indication_words};
use json::Value;
use station_names::{kind, member};
use std::alloc::{AllocError, Global};

// The condition of a suspension that a user asked for.
const SUSPEND_REQUEST: u64 = 14;

/// Adds the moment of an event, and its user and transaction if it has them.
pub(crate) fn push_head(line: &mut String, value: &Value<'_>) -> Result<(), AllocError> {
    push_at(line, text_in(value, member::AT).unwrap_or("?"))?;
    if let Some(user) = text_in(value, member::USER) {
        write!(line, " {user}")?;
    }
    match transaction_in(value) {
        Some(Transaction { source, seq }) => write!(line, " {source}.{seq}"),
        None => Ok(()),
    }
}

/// Adds a moment with a space between its day and its time.
pub(crate) fn push_at(line: &mut String, moment: &str) -> Result<(), AllocError> {
    match moment.split_once('T') {
        Some((day, time)) => write!(line, "{day} {time}"),
        None => line.push_str(moment),
    }
}

/// Adds what happened.
pub(crate) fn push_words(
    alloc: Global,
    line: &mut String,
    value: &Value<'_>,
) -> Result<(), AllocError> {
    match words_for(value) {
        Some(parts) => push_parts(alloc, line, value, parts, NO_LOOK),
        None => line.push_str(name_of(value).unwrap_or("?")),
    }
}

// The words for an event, if it is known.
fn words_for(value: &Value<'_>) -> Option<&'static [Part]> {
    if is_indication(value) {
        indication_words(name_of(value)?)
    } else {
        event_words(name_of(value)?)
    }
}

/// The tone in which an event is shown.
pub(crate) fn tone_of(value: &Value<'_>) -> Tone {
    if is_indication(value) {
        indication_tone(value)
    } else {
        event_tone(value)
    }
}

fn indication_tone(value: &Value<'_>) -> Tone {
    match name_of(value) {
        Some("Transaction-Finished") => end_tone(value),
        Some("Fault" | "Abandoned") => Tone::Bad,
        Some("Suspended") if !is_wanted(value) => Tone::Bad,
        Some("File-Segment-Recv") => Tone::Faint,
        _ => Tone::Plain,
    }
}

// Whether a user asked for what an indication reports.
fn is_wanted(value: &Value<'_>) -> bool {
    number_in(value, member::CONDITION) == Some(SUSPEND_REQUEST)
}

fn event_tone(value: &Value<'_>) -> Tone {
    match name_of(value) {
        Some(kind::STORED) if text_in(value, member::STATUS) == Some("retained") => Tone::Plain,
        Some(kind::STORED | kind::UNSENT | kind::UNPARKED | kind::REFUSED) => Tone::Bad,
        Some(kind::JOURNAL_FULL) => Tone::Bad,
        _ => Tone::Plain,
    }
}

// The name of an indication, or the kind of another event.
fn name_of<'a>(value: &Value<'a>) -> Option<&'a str> {
    if is_indication(value) {
        text_in(value, member::NAME)
    } else {
        text_in(value, member::KIND)
    }
}

fn is_indication(value: &Value<'_>) -> bool {
    text_in(value, member::KIND) == Some(kind::INDICATION)
}
