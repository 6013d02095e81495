//! Makes texts from the members of a JSON object, part by part.
use crate::amounts::{push_age, push_bar, push_octets, push_rate};
use crate::conditions::condition_words;
use crate::ends::push_end;
use crate::fields::{is_set, items_in, moment_in, number_in, push_name, share_in, text_in};
use crate::meanings::refusal_words;
use json::Value;
use station_names::{member, word};
use std::alloc::{AllocError, Global};

/// A part of a text, in most cases with the name of the member that it shows. A part that begins with `Some` is left
/// out if the member is missing.
#[derive(Clone, Copy)]
pub(crate) enum Part {
    /// These words.
    Words(&'static str),
    /// A number, or a text in its place if it is missing.
    Number(&'static str, &'static str),
    /// A text, or another in its place if it is missing.
    Text(&'static str, &'static str),
    /// An amount of octets, or a text in its place if it is missing.
    Octets(&'static str, &'static str),
    /// A file's name: text, or octets in hex.
    Name(&'static str),
    /// A file's names at its source and at its destination.
    Names,
    /// Words, a number, and words after it.
    SomeNumber(&'static str, &'static str, &'static str),
    /// Words, the numbers of a list, of which one may be chosen, and words after them; left out also if the list is
    /// empty.
    SomeNumbers(&'static str, &'static str, &'static str),
    /// Words, a text, and words after it.
    SomeText(&'static str, &'static str, &'static str),
    /// Words and an amount of octets.
    SomeOctets(&'static str, &'static str),
    /// The condition, in words.
    Condition,
    /// How the transaction ended.
    End,
    /// Words, and what a refusal says of its datagram; left out if that isn't known.
    Meaning(&'static str),
    /// The direction of the file, before the entity at the other end.
    Direction,
    /// Since when the link is held, if it is.
    Held,
    /// The file's progress, as a bar.
    Bar,
    /// The file's progress, in percent.
    Percent,
    /// The rate in octets a second since the last look.
    Rate,
    /// The time since the last event.
    Age,
}

/// What parts show besides the object: the moment of the look in milliseconds, and the rate in octets a second since
/// the one before.
#[derive(Clone, Copy)]
pub(crate) struct Look {
    pub(crate) now: Option<u64>,
    pub(crate) rate: Option<u64>,
}

/// For parts that show neither.
pub(crate) const NO_LOOK: Look = Look {
    now: None,
    rate: None,
};

/// Adds the texts of all parts.
pub(crate) fn push_parts(
    alloc: Global,
    text: &mut String,
    value: &Value<'_>,
    parts: &[Part],
    look: Look,
) -> Result<(), AllocError> {
    for part in parts {
        push_part(alloc, text, value, *part, look)?;
    }
    Ok(())
}

fn push_part(
    alloc: Global,
    text: &mut String,
    value: &Value<'_>,
    part: Part,
    look: Look,
) -> Result<(), AllocError> {
    match part {
        Part::Words(words) => text.push_str(words),
        Part::Number(name, missing) => push_number(text, "", number_in(value, name), "", missing),
        Part::Text(name, missing) => text.push_str(text_in(value, name).unwrap_or(missing)),
        Part::Octets(name, missing) => push_amount(text, "", number_in(value, name), missing),
        Part::Name(name) => push_name(alloc, text, value, name),
        Part::Names => push_names(alloc, text, value),
        Part::SomeNumber(front, name, back) => {
            push_number(text, front, number_in(value, name), back, "")
        }
        Part::SomeNumbers(front, name, back) => {
            push_some_numbers(text, front, items_in(value, name), back)
        }
        Part::SomeText(front, name, back) => push_some_text(
            text,
            front,
            text_in(value, name),
            back,
        ),
        Part::SomeOctets(front, name) => push_amount(text, front, number_in(value, name), ""),
        Part::Condition => push_condition(text, number_in(value, member::CONDITION)),
        Part::End => push_end(text, value),
        Part::Meaning(front) => push_some_text(text, front, meaning_in(value), ""),
        Part::Direction => text.push_str(direction_of(text_in(value, member::ROLE))),
        Part::Held => push_held(text, value),
        Part::Bar => push_share_bar(text, share_in(value)),
        Part::Percent => push_number(text, "", share_in(value), "%", ""),
        Part::Rate => push_rate(text, look.rate),
        Part::Age => push_age_since(text, look.now, moment_in(value, member::LAST)),
    }
}

// Adds a number between two texts, or a text in the place of all three.
fn push_number(
    text: &mut String,
    front: &str,
    number: Option<u64>,
    back: &str,
    missing: &str,
) -> Result<(), AllocError> {
    match number {
        Some(number) => write!(text, "{front}{number}{back}"),
        None => text.push_str(missing),
    }
}

// What the refusal that a line names says of its datagram.
fn meaning_in(value: &Value<'_>) -> Option<&'static str> {
    text_in(value, member::NAME).and_then(|name| refusal_words(
        name,
        number_in(value, member::FAULT),
    ))
}

// Adds an amount of octets after a text, or a text in the place of both.
fn push_amount(
    text: &mut String,
    front: &str,
    octets: Option<u64>,
    missing: &str,
) -> Result<(), AllocError> {
    match octets {
        Some(octets) => {
            text.push_str(front)?;
            push_octets(text, octets)
        }
        None => text.push_str(missing),
    }
}

fn push_names(alloc: Global, text: &mut String, value: &Value<'_>) -> Result<(), AllocError> {
    push_name(alloc, text, value, member::FILE)?;
    text.push_str(" to ")?;
    push_name(alloc, text, value, member::TO)
}

fn push_some_numbers(
    text: &mut String,
    front: &'static str,
    numbers: Option<&[Value<'_>]>,
    back: &'static str,
) -> Result<(), AllocError> {
    match numbers {
        Some(numbers) if !numbers.is_empty() => {
            text.push_str(front)?;
            push_choice(text, numbers)?;
            text.push_str(back)
        }
        _ => Ok(()),
    }
}

// Adds numbers, of which one may be chosen.
fn push_choice(text: &mut String, numbers: &[Value<'_>]) -> Result<(), AllocError> {
    let mut left_over = numbers.len();
    for (place, number) in numbers.iter().enumerate() {
        left_over = left_over.saturating_sub(1);
        text.push_str(word_before(place, left_over))?;
        push_number(text, "", number.as_u64(), "", "?")?;
    }
    Ok(())
}

// The text before a choice.
fn word_before(place: usize, left_over: usize) -> &'static str {
    if place == 0 {
        ""
    } else if left_over == 0 {
        " or "
    } else {
        ", "
    }
}

fn push_some_text(
    text: &mut String,
    front: &'static str,
    word: Option<&str>,
    back: &'static str,
) -> Result<(), AllocError> {
    match word {
        Some(word) => write!(text, "{front}{word}{back}"),
        None => Ok(()),
    }
}

fn push_condition(text: &mut String, code: Option<u64>) -> Result<(), AllocError> {
    match code {
        Some(code) => text.push_str(condition_words(code)),
        None => text.push('?'),
    }
}

fn direction_of(role: Option<&str>) -> &'static str {
    match role {
        Some(word::SENDER) => "to ",
        Some(word::RECEIVER) => "from ",
        _ => "",
    }
}

fn push_held(text: &mut String, value: &Value<'_>) -> Result<(), AllocError> {
    if !is_set(value, member::HELD) {
        return Ok(());
    }
    text.push_str(", held since ")?;
    text.push_str(text_in(value, member::HELD_SINCE).unwrap_or("?"))
}

fn push_share_bar(text: &mut String, percent: Option<u64>) -> Result<(), AllocError> {
    match percent {
        Some(percent) => push_bar(text, percent),
        None => Ok(()),
    }
}

fn push_age_since(
    text: &mut String,
    now: Option<u64>,
    last: Option<u64>,
) -> Result<(), AllocError> {
    match (now, last) {
        (Some(now), Some(last)) => push_age(text, now.saturating_sub(last)),
        _ => text.push('-'),
    }
}
