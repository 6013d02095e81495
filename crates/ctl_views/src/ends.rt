//! How a file ended.
ghost use Rattle.ctl_views.specs.Ends.{IsEnd};

use crate::conditions::condition_words;
use crate::fields::{number_in, text_in};
use crate::page::Tone;
use json::Value;
use station_names::member;
use std::alloc::AllocError;

/// How a file ended.
#[derive(Clone, Copy)]
pub enum End {
    /// The receiver has kept the whole file.
    Kept,
    /// The whole file was sent, and the receiver reports nothing.
    Unreported,
    /// Anything else.
    Lost,
}

/// The end that an event or a line of a status reports; `None` if it has no condition. The line of a transaction has
/// none if the server hasn't taken its last indication yet.
pub(crate) fn end_in(value: &Value<'_>) -> Option<End> {
    let condition = number_in(value, member::CONDITION)?;
    match (
        text_in(value, member::DELIVERY),
        text_in(value, member::STATUS),
    ) {
        (Some(delivery), Some(status)) => Some(end_of(condition, delivery, status)),
        _ => Some(End::Lost),
    }
}

fn end_of(condition: u64, delivery: &str, status: &str) -> End
    ensures { IsEnd condition delivery.now status.now result }
{
    if condition != 0 {
        End::Lost
    } else if status == "unreported" {
        End::Unreported
    } else if delivery == "complete" && status == "retained" {
        End::Kept
    } else {
        End::Lost
    }
}

/// The tone of the end that an event or a line of a status reports.
pub(crate) fn end_tone(value: &Value<'_>) -> Tone {
    match end_in(value) {
        Some(End::Kept) => Tone::Good,
        Some(End::Lost) => Tone::Bad,
        Some(End::Unreported) | None => Tone::Plain,
    }
}

/// Adds how a transaction ended: its condition if that is an error, its delivery, and what became of the file. If there
/// is no condition, it is still ending.
pub(crate) fn push_end(text: &mut String, value: &Value<'_>) -> Result<(), AllocError> {
    let Some(code) = number_in(value, member::CONDITION) else {
        return text.push_str("ending");
    };
    let words = condition_words(code);
    let status = text_in(value, member::STATUS).unwrap_or("?");
    match text_in(value, member::DELIVERY) {
        None => write!(text, "abandoned, {words}"),
        Some(delivery) if code == 0 => write!(text, "{delivery}, {status}"),
        Some(delivery) => write!(text, "{words}, {delivery}, {status}"),
    }
}
