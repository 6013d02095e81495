//! What is wrong with a line that isn't a command.
ghost use Rattle.std.specs.Prelude.{◌≡◌, ◌++◌, OnOk, map, take};
ghost use Rattle.server_lines.specs.LineFaults.{fits, is_options, operands_fault, shown_octet, shown_word, spare_fault, unfit_text, wanted_text};

use crate::operands::file_name_of;
use crate::tuning::{A_DAY, positive_of, rate_in};
use cfdp_types::Octets;
use entity_config::Config;
use event_levels::Level;
use line_words::{class_of, lane_of, number_of, quoted_words, user_of};
use std::alloc::{AllocError, Global};

/// What an operand of a command has to be.
#[derive(Clone, Copy, Debug, PartialEq, Eq)]
pub(crate) enum Wanted {
    User,
    Lane,
    Class,
    Entity,
    /// An entity, or all of them.
    Link,
    Name,
    Source,
    Sequence,
    /// The number of a file in the outbox.
    Queued,
    Seconds,
    Rate,
    Count,
    Level,
    /// A number of events, or their level.
    CountOrLevel,
    Closure,
    /// What a send may ask for besides its file. Its words are right in a command alone.
    Options,
}

/// A command's name, whether a line of this form has one operand at most, and what its operands have to be.
pub(crate) type Form = (&'static str, bool, &'static [Wanted]);

const TRANSACTION: &[Wanted] = &[Wanted::Source, Wanted::Sequence];

const REQUEST: &[Wanted] = &[Wanted::User, Wanted::Source, Wanted::Sequence];

const PUT: &[Wanted] = &[
    Wanted::User,
    Wanted::Lane,
    Wanted::Class,
    Wanted::Entity,
    Wanted::Name,
    Wanted::Name,
    Wanted::Closure,
];

const SEND: &[Wanted] = &[
    Wanted::User,
    Wanted::Class,
    Wanted::Entity,
    Wanted::Name,
    Wanted::Name,
    Wanted::Options,
];

/// The forms of all commands. Of a command's two forms the short one comes first.
pub(crate) const FORMS: [Form; 22] = [
    ("put", false, PUT),
    ("send", false, SEND),
    ("take", false, &[Wanted::User]),
    ("cancel", false, REQUEST),
    ("suspend", false, REQUEST),
    ("resume", false, REQUEST),
    ("report", false, REQUEST),
    ("abandon", false, REQUEST),
    ("trace", false, TRANSACTION),
    ("journal", false, TRANSACTION),
    ("status", false, &[]),
    ("outbox", false, &[]),
    ("reopen", false, &[]),
    ("quit", false, &[]),
    ("drop", false, &[Wanted::Queued]),
    ("hold", false, &[Wanted::Link]),
    ("release", true, &[Wanted::Link]),
    ("release", false, &[Wanted::Entity, Wanted::Seconds]),
    ("rate", true, &[Wanted::Rate]),
    ("rate", false, &[Wanted::Entity, Wanted::Rate]),
    ("follow", true, &[Wanted::CountOrLevel]),
    ("follow", false, &[Wanted::Count, Wanted::Level]),
];

// How many octets of a word are shown.
const SHOWN: usize = 40;

/// What is wrong with a line that isn't a command, in words: which word, and what has to stand in its place. A line whose
/// quotes aren't closed has no words.
pub fn line_fault(alloc: Global, config: &Config, line: &[u8]) -> Result<Vec<u8>, AllocError> {
    let mut text = Vec::new(alloc);
    match quoted_words(alloc, line)? {
        None => text.extend_from_slice(
            b"quotes are not closed, or an octet stands where it may not, such as one beyond ASCII outside quotes",
        )?,
        Some(words) => push_words_fault(&mut text, config, words.as_slice())?,
    }
    Ok(text)
}

// Adds what is wrong with the words of a line.
fn push_words_fault(
    text: &mut Vec<u8>,
    config: &Config,
    words: &[Octets],
) -> Result<(), AllocError> {
    let Some((name, operands)) = words.split_first() else {
        return Ok(());
    };
    let is_short = operands.len() < 2;
    let name = name.as_slice();
    let Some(place) = FORMS.iter().position(|form| has_form(form, name, is_short)) else {
        push_shown(text, name)?;
        return text.extend_from_slice(b" is not a command");
    };
    text.extend_from_slice(name)?;
    text.extend_from_slice(b": ")?;
    push_operands_fault(text, config, FORMS[place].2, operands)
}

// Whether a line with this name has a form.
fn has_form(form: &Form, name: &[u8], is_short: bool) -> bool {
    form.0.as_bytes() == name && (is_short || !form.1)
}

// Adds the first word that isn't what is wanted, or else what is missing, or what is too many.
fn push_operands_fault(
    text: &mut Vec<u8>,
    config: &Config,
    wanted: &[Wanted],
    operands: &[Octets],
) -> Result<(), AllocError>
    ensures { OnOk result (text.new.items ≡ text.old.items ++ operands_fault config.now wanted.now operands.now) }
{
    let Some((first, later)) = wanted.split_first() else {
        return push_spare(text, operands);
    };
    let Some((word, rest)) = operands.split_first() else {
        text.extend_from_slice(wanted_text(*first))?;
        return text.extend_from_slice(b" is missing");
    };
    if fits(config, *first, word.as_slice()) {
        return push_operands_fault(text, config, later, rest);
    }
    push_unfit(text, *first, word.as_slice())
}

// Adds a word that isn't what is wanted. Of a send's options any may be wrong.
fn push_unfit(text: &mut Vec<u8>, wanted: Wanted, word: &[u8]) -> Result<(), AllocError>
    ensures { OnOk result (text.new.items ≡ text.old.items ++ unfit_text wanted word.now) }
{
    if is_options(wanted) {
        return text.extend_from_slice(wanted_text(wanted));
    }
    push_shown(text, word)?;
    text.extend_from_slice(b" is not ")?;
    text.extend_from_slice(wanted_text(wanted))
}

fn is_options(wanted: Wanted) -> bool
    ensures { result ≡ is_options wanted }
{
    match wanted {
        Wanted::Options => true,
        Wanted::User
        | Wanted::Lane
        | Wanted::Class
        | Wanted::Entity
        | Wanted::Link
        | Wanted::Name
        | Wanted::Source
        | Wanted::Sequence
        | Wanted::Queued
        | Wanted::Seconds
        | Wanted::Rate
        | Wanted::Count
        | Wanted::Level
        | Wanted::CountOrLevel
        | Wanted::Closure => false,
    }
}

// Adds the first word after all that are wanted.
fn push_spare(text: &mut Vec<u8>, operands: &[Octets]) -> Result<(), AllocError>
    ensures { OnOk result (text.new.items ≡ text.old.items ++ spare_fault operands.now) }
{
    let Some(word) = operands.first() else {
        return Ok(());
    };
    push_shown(text, word.as_slice())?;
    text.extend_from_slice(b" is one word too many")
}

// Whether a word is what is wanted.
fn fits(config: &Config, wanted: Wanted, word: &[u8]) -> bool
    ensures { result ≡ fits config.now wanted word.now }
{
    match wanted {
        Wanted::User => user_of(config, word).is_some(),
        Wanted::Lane => lane_of(config, word).is_some(),
        Wanted::Class => class_of(word).is_some(),
        Wanted::Entity | Wanted::Source | Wanted::Sequence | Wanted::Queued | Wanted::Count => {
            number_of(word).is_some()
        }
        Wanted::Link => word == b"all".as_slice() || number_of(word).is_some(),
        Wanted::Name => file_name_of(word).is_some(),
        Wanted::Seconds => positive_of(word, A_DAY).is_some(),
        Wanted::Rate => rate_in(word).is_some(),
        Wanted::Level => Level::named(word).is_some(),
        Wanted::CountOrLevel => Level::named(word).is_some() || number_of(word).is_some(),
        Wanted::Closure => word == b"closure".as_slice(),
        Wanted::Options => false,
    }
}

// What an operand has to be, in words.
fn wanted_text(wanted: Wanted) -> &'static [u8]
    ensures { result.now ≡ wanted_text wanted }
{
    match wanted {
        Wanted::User => b"a user of the configuration",
        Wanted::Lane => b"one of the user's sending lanes",
        Wanted::Class => b"a class, 1 or 2",
        Wanted::Entity => b"the number of an entity",
        Wanted::Link => b"the number of an entity, or all",
        Wanted::Name => b"a name of 1 to 255 octets",
        Wanted::Source => b"the number of a transaction's source",
        Wanted::Sequence => b"a transaction's sequence number",
        Wanted::Queued => b"the number of a file in the outbox",
        Wanted::Seconds => b"a number of seconds, 1 to 86400",
        Wanted::Rate => b"a number of octets a second, 1 to 1000000000, or off",
        Wanted::Count => b"a number of events",
        Wanted::Level => b"a level: detail, info or warning",
        Wanted::CountOrLevel => b"a number of events, or a level: detail, info or warning",
        Wanted::Closure => b"the word closure",
        Wanted::Options =>
            b"after the names come closure, urgent and as NAME, each or none, in this order",
    }
}

// Adds a word in quotes, as far as it is shown.
fn push_shown(text: &mut Vec<u8>, word: &[u8]) -> Result<(), AllocError>
    ensures { OnOk result (text.new.items ≡ text.old.items ++ shown_word word.now) }
{
    text.extend_from_slice(b"\"")?;
    push_octets(text, shown_part(word))?;
    text.extend_from_slice(b"\"")
}

// As much of a word as is shown.
fn shown_part(word: &[u8]) -> &[u8]
    ensures { result.now ≡ take 40 word.now }
{
    &word[..SHOWN.min(word.len())]
}

fn push_octets(text: &mut Vec<u8>, word: &[u8]) -> Result<(), AllocError>
    ensures { OnOk result (text.new.items ≡ text.old.items ++ map shown_octet word.now) }
{
    for octet in word {
        text.push(shown_octet(*octet))?;
    }
    Ok(())
}

// An octet as it is shown: itself, or a question mark if it isn't printable.
fn shown_octet(octet: u8) -> u8
    ensures { result ≡ shown_octet octet }
{
    if (b' '..=b'~').contains(&octet) {
        octet
    } else {
        b'?'
    }
}
