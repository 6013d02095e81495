//! Rows of puts, with the pieces of their files. Each function appends to `text`; after an `Err` the text is not to be
//! used.
ghost use Rattle.std.specs.Prelude.{◌≡◌, ◌++◌, IfOk, OnOk, string_bytes};
ghost use Rattle.std.specs.List.{flat_map, list_all};
ghost use Rattle.std.specs.Option.{option_copied};
ghost use Rattle.journal_scripts.specs.Rows.{class_word, file_word, is_plain, is_word, is_word_octet, piece_text, pieces, put_text, put_words, row_text, word_of};

use cfdp_types::limits::NAME_OCTETS;
use cfdp_types::{Class, PutRequest};
use std::alloc::{AllocError, Global};

/// The most octets of a file that one line gathers.
pub const PIECE_OCTETS: usize = 32_768;

/// Adds the rows of a put from a lane of the user with this name, and returns whether rows can have it.
pub(crate) fn push_put(
    alloc: Global,
    text: &mut String,
    name: &str,
    lane: usize,
    put: &PutRequest,
) -> Result<bool, AllocError>
    ensures plain { IfOk result (λ plain. plain ≡ is_plain put.now) }
    ensures added { OnOk result (string_bytes text.new ≡ string_bytes text.old ++ put_text name.now lane put.now) }
{
    if !put.messages().as_slice().is_empty() {
        return Ok(false);
    }
    let Some(source) = word_of(put.source_name().as_slice()) else {
        return Ok(false);
    };
    let Some(destination) = word_of(put.destination_name().as_slice()) else {
        return Ok(false);
    };
    let file = put.file().as_slice();
    push_pieces(alloc, text, file)?;
    push_row(text, name, lane, put, source, destination)?;
    Ok(true)
}

// A name as a word of a line, if it can be one.
fn word_of(name: &[u8]) -> Option<&str>
    ensures { option_copied result ≡ word_of name.now }
{
    if !is_word(name) {
        return None;
    }
    match str::from_utf8(name) {
        Ok(word) => Some(word),
        Err(_) => None,
    }
}

fn is_word(name: &[u8]) -> bool
    ensures { result ≡ is_word name.now }
{
    !name.is_empty() && name.len() <= NAME_OCTETS && has_word_octets(name)
}

fn has_word_octets(name: &[u8]) -> bool
    ensures { result ≡ list_all is_word_octet name.now }
{
    name.iter()
        .all(|octet| *octet < 128 && *octet != b' ' && *octet != b'\n')
}

// Adds the rows that gather a file.
fn push_pieces(alloc: Global, text: &mut String, file: &[u8]) -> Result<(), AllocError>
    ensures { OnOk result (string_bytes text.new ≡ string_bytes text.old ++ flat_map piece_text (pieces file.now)) }
{
    if file.is_empty() {
        return Ok(());
    }
    let more = (file.len() - 1) / PIECE_OCTETS;
    let mut rest = file;
    for _count in 0..more {
        let (piece, others) = rest.split_at(PIECE_OCTETS);
        push_piece(alloc, text, piece)?;
        rest = others;
    }
    push_piece(alloc, text, rest)
}

fn push_piece(alloc: Global, text: &mut String, piece: &[u8]) -> Result<(), AllocError>
    ensures { OnOk result (string_bytes text.new ≡ string_bytes text.old ++ piece_text piece.now) }
{
    let digits = hex::encode(alloc, piece)?;
    text.push_str("file ")?;
    text.push_str(digits.as_str())?;
    text.push_str("\n")
}

// Adds the row of a put after those of its file.
fn push_row(
    text: &mut String,
    name: &str,
    lane: usize,
    put: &PutRequest,
    source: &str,
    destination: &str,
) -> Result<(), AllocError>
    requires source { source.now ≡ put.now.source_name }
    requires destination { destination.now ≡ put.now.destination_name }
    ensures { OnOk result (string_bytes text.new ≡ string_bytes text.old ++ row_text (put_words name.now lane put.now)) }
{
    let class = class_word(put.class());
    let to = put.destination().0;
    let file = file_word(put.file().as_slice());
    if put.closure() {
        writeln!(
            text,
            "put {name} {lane} {class} {to} {source} {destination} {file} closure"
        )
    } else {
        writeln!(
            text,
            "put {name} {lane} {class} {to} {source} {destination} {file}"
        )
    }
}

fn class_word(class: Class) -> &'static str
    ensures { result.now ≡ class_word class }
{
    match class {
        Class::One => "1",
        Class::Two => "2",
    }
}

fn file_word(file: &[u8]) -> &'static str
    ensures { result.now ≡ file_word file.now }
{
    if file.is_empty() { "-" } else { "@" }
}
