//! The whole text of a file.
ghost use Rattle.std.specs.Prelude.{◌≡◌, false, true, IfOk, None, Some};
ghost use Rattle.std.specs.Option.{option_map};
ghost use Rattle.outbox_file.specs.Books.{value};
ghost use Rattle.outbox_file.specs.Texts.{bad_line_in, book_by, book_text, first_bad, is_bad, is_whole, noted};

use crate::book::Book;
use crate::lines::{Line, line_in, push_line, push_queued};
use std::alloc::{AllocError, Global};

/// Where a line begins that can't be parsed.
#[derive(Clone, Copy, Debug, PartialEq, Eq)]
pub struct BadLine {
    /// Which line of the file it is, from 1.
    pub line: usize,
    /// How many octets stand before it.
    pub offset: usize,
}

/// What a text says; `None` if one of its lines can't be parsed and it isn't to be mended. What follows the last line
/// feed is ignored.
pub(crate) fn book_by(alloc: Global, text: &[u8], mends: bool) -> Result<Option<Book>, AllocError>
    ensures { IfOk result (λ book. option_map value book ≡ book_by mends text.now) }
{
    let mut book = Book::new(alloc);
    let mut line = Vec::new(alloc);
    for octet in text {
        if *octet == b'\n' {
            let fits = note_line(alloc, &mut book, line.as_slice(), mends)?;
            if !fits {
                return Ok(None);
            }
            line.clear();
        } else {
            line.push(*octet)?;
        }
    }
    Ok(Some(book))
}

// Notes what one more line says, and returns false where the text says nothing because of it.
fn note_line(alloc: Global, book: &mut Book, line: &[u8], mends: bool) -> Result<bool, AllocError>
    ensures fits { IfOk result (λ fits. fits ≡ true → noted mends line.now (Some (value book.old)) ≡ Some (value book.new)) }
    ensures not { IfOk result (λ fits. fits ≡ false → noted mends line.now (Some (value book.old)) ≡ None) }
{
    if !is_whole(line) {
        return Ok(true);
    }
    match line_in(alloc, line)? {
        Some(said) => {
            book.reserve()?;
            book.note(said);
            Ok(true)
        }
        None => Ok(mends),
    }
}

/// Whether words have no zero, which a power cut may leave in place of any octet.
pub(crate) fn is_whole(words: &[u8]) -> bool
    ensures { result ≡ is_whole words.now }
{
    words.iter().all(|octet| *octet != 0)
}

/// The first line of a text that can't be parsed, if there is one. One that a power cut tore doesn't count.
pub fn bad_line_in(alloc: Global, text: &[u8]) -> Result<Option<BadLine>, AllocError>
    ensures { IfOk result (λ bad. bad ≡ bad_line_in text.now) }
{
    let mut at = BadLine { line: 1, offset: 0 };
    let mut bad = None;
    let mut line = Vec::new(alloc);
    for octet in text {
        if *octet == b'\n' {
            bad = first_bad(alloc, bad, line.as_slice(), at)?;
            at = BadLine {
                line: at.line + 1,
                offset: at.offset + line.len() + 1,
            };
            line.clear();
        } else {
            line.push(*octet)?;
        }
    }
    Ok(bad)
}

// The first line that can't be parsed, with one more line.
fn first_bad(
    alloc: Global,
    bad: Option<BadLine>,
    line: &[u8],
    at: BadLine,
) -> Result<Option<BadLine>, AllocError>
    ensures { IfOk result (λ found. found ≡ first_bad bad line.now at) }
{
    if bad.is_some() || !is_bad(alloc, line)? {
        return Ok(bad);
    }
    Ok(Some(at))
}

// Whether a line can't be parsed although no power cut tore it.
fn is_bad(alloc: Global, line: &[u8]) -> Result<bool, AllocError>
    ensures { IfOk result (λ bad. bad ≡ is_bad line.now) }
{
    if !is_whole(line) {
        return Ok(false);
    }
    Ok(line_in(alloc, line)?.is_none())
}

/// The text that says just what a book says.
pub(crate) fn book_text(alloc: Global, book: &Book) -> Result<Vec<u8>, AllocError>
    ensures { IfOk result (λ text. text.items ≡ book_text (value book.now)) }
{
    let mut text = Vec::new(alloc);
    for entry in &book.entries {
        push_queued(alloc, &mut text, entry)?;
        text.push(b'\n')?;
    }
    for number in &book.begun {
        push_line(alloc, &mut text, &Line::Began(*number))?;
    }
    push_line(alloc, &mut text, &Line::Next(book.next))?;
    Ok(text)
}
