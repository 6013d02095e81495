//! One line of the file, and its text.
ghost use Rattle.std.specs.Prelude.{◌≡◌, ◌++◌, IfOk, OnOk};
ghost use Rattle.std.specs.Option.{option_copied};
ghost use Rattle.line_words.specs.Words.{words_left};
ghost use Rattle.outbox_file.specs.Texts.{entry_line, line_in, line_text, numbered, queued_from, queued_since, queued_text, short_alone, short_line};

use crate::book::Entry;
use cfdp_types::Octets;
use line_words::{Rest, next_word, number_of, split_word};
use std::alloc::{AllocError, Global};

/// What a line of the file says.
#[derive(Drop)]
pub enum Line {
    /// The next file gets this number.
    Next(u64),
    /// A file waits.
    Queued(Entry),
    /// The file with this number is under way.
    Began(u64),
    /// Its transaction ended.
    Ended(u64),
    /// It was given up, or taken out.
    Dropped(u64),
}

/// Adds a line and its line feed to a text. If memory runs out, a part of it may have been added.
pub(crate) fn push_line(alloc: Global, text: &mut Vec<u8>, line: &Line) -> Result<(), AllocError>
    ensures { OnOk result (text.new.items ≡ text.old.items ++ line_text line.now) }
{
    match line {
        Line::Next(number) => push_numbered(alloc, text, "next", *number)?,
        Line::Queued(entry) => push_queued(alloc, text, entry)?,
        Line::Began(number) => push_numbered(alloc, text, "began", *number)?,
        Line::Ended(number) => push_numbered(alloc, text, "ended", *number)?,
        Line::Dropped(number) => push_numbered(alloc, text, "dropped", *number)?,
    }
    text.push(b'\n')?;
    Ok(())
}

fn push_numbered(
    alloc: Global,
    text: &mut Vec<u8>,
    word: &str,
    number: u64,
) -> Result<(), AllocError>
    ensures { OnOk result (text.new.items ≡ text.old.items ++ numbered word.now number) }
{
    let said = format!(in alloc; "{word} {number}")?;
    text.extend_from_slice(said.as_bytes())
}

/// Adds the line of a file that waits, without its line feed.
pub(crate) fn push_queued(
    alloc: Global,
    text: &mut Vec<u8>,
    entry: &Entry,
) -> Result<(), AllocError>
    ensures { OnOk result (text.new.items ≡ text.old.items ++ queued_text entry.now) }
{
    let (number, since) = (entry.number, entry.since);
    let said = format!(in alloc; "queued {number} {since} ")?;
    text.extend_from_slice(said.as_bytes())?;
    text.extend_from_slice(entry.words.as_slice())
}

/// What a line says, given without its line feed; `None` if it can't be parsed.
pub(crate) fn line_in(alloc: Global, text: &[u8]) -> Result<Option<Line>, AllocError>
    ensures { IfOk result (λ line. line ≡ line_in text.now) }
{
    let (kind, rest) = split_word(text);
    let Some((number, rest)) = next_word(rest) else {
        return Ok(None);
    };
    if kind == b"queued".as_slice() {
        queued_from(alloc, number, rest)
    } else {
        Ok(short_alone(kind, number, rest))
    }
}

// A line of two words, if there are no more.
fn short_alone(kind: &[u8], number: &[u8], rest: Rest<'_>) -> Option<Line>
    ensures { result ≡ short_alone kind.now number.now (words_left (option_copied rest.entry)) }
{
    match rest {
        None => short_line(kind, number),
        Some(_) => None,
    }
}

// A line of two words.
fn short_line(kind: &[u8], number: &[u8]) -> Option<Line>
    ensures { result ≡ short_line kind.now number.now }
{
    let number = number_of(number)?;
    if kind == b"next".as_slice() {
        Some(Line::Next(number))
    } else if kind == b"began".as_slice() {
        Some(Line::Began(number))
    } else if kind == b"ended".as_slice() {
        Some(Line::Ended(number))
    } else if kind == b"dropped".as_slice() {
        Some(Line::Dropped(number))
    } else {
        None
    }
}

// The line of a file that waits, from its number and the words after it.
fn queued_from(alloc: Global, number: &[u8], rest: Rest<'_>) -> Result<Option<Line>, AllocError>
    ensures { IfOk result (λ line. line ≡ queued_from number.now (words_left (option_copied rest.entry))) }
{
    match next_word(rest) {
        None => Ok(None),
        Some((since, rest)) => queued_since(alloc, number, since, rest),
    }
}

fn queued_since(
    alloc: Global,
    number: &[u8],
    since: &[u8],
    rest: Rest<'_>,
) -> Result<Option<Line>, AllocError>
    ensures { IfOk result (λ line. line ≡ queued_since number.now since.now (words_left (option_copied rest.entry))) }
{
    match rest {
        None => Ok(None),
        Some(words) => entry_line(alloc, number, since, words),
    }
}

fn entry_line(
    alloc: Global,
    number: &[u8],
    since: &[u8],
    words: &[u8],
) -> Result<Option<Line>, AllocError>
    ensures { IfOk result (λ line. line ≡ entry_line number.now since.now words.now) }
{
    let Some(number) = number_of(number) else {
        return Ok(None);
    };
    let Some(since) = number_of(since) else {
        return Ok(None);
    };
    Ok(Some(Line::Queued(Entry {
        number,
        since,
        words: Octets::from_slice(alloc, words)?,
    })))
}
