//! The names of the files that recordings are kept in: `SOURCE.SEQ.script`.
ghost use Rattle.std.specs.Prelude.{◌≡◌, ◌==◌, ◌++◌, ◌<◌, IfSome, OnOk, length, position, string_bytes};
ghost use Rattle.program_recorder.specs.Names.{has_zeros, key_by, key_of_name, key_with, name_text, plain_number, point_place};

use cfdp_types::{EntityId, TxnKey};
use line_words::number_of;
use std::alloc::AllocError;

/// Adds the name of a transaction's file.
pub fn push_name(text: &mut String, key: TxnKey) -> Result<(), AllocError>
    ensures { OnOk result (string_bytes text.new ≡ string_bytes text.old ++ name_text key) }
{
    let source = key.source.0;
    let seq = key.seq;
    write!(text, "{source}.{seq}.script")
}

/// The transaction whose file has this name; `None` for any other name.
pub fn key_of_name(name: &[u8]) -> Option<TxnKey>
    ensures { result ≡ key_of_name name.now }
{
    let place = point_place(name)?;
    key_with(&name[..place], &name[place + 1..])
}

// The transaction by its first number, and what follows the first point.
fn key_with(source: &[u8], rest: &[u8]) -> Option<TxnKey>
    ensures { result ≡ key_with source.now rest.now }
{
    let place = point_place(rest)?;
    key_by(source, &rest[..place], &rest[place + 1..])
}

// The transaction by both numbers and the name's ending.
fn key_by(source: &[u8], seq: &[u8], ending: &[u8]) -> Option<TxnKey>
    ensures { result ≡ key_by source.now seq.now ending.now }
{
    if ending != b"script".as_slice() {
        return None;
    }
    let source = plain_number(source)?;
    let seq = plain_number(seq)?;
    Some(TxnKey {
        source: EntityId(source),
        seq,
    })
}

// The place of the first point.
fn point_place(name: &[u8]) -> Option<usize>
    ensures place { result ≡ point_place name.now }
    ensures within { IfSome result (λ at. at < length name.now) }
{
    name.iter().position(|octet| *octet == b'.')
}

// The number that a word writes without needless zeros.
fn plain_number(word: &[u8]) -> Option<u64>
    ensures { result ≡ plain_number word.now }
{
    if has_zeros(word) {
        return None;
    }
    number_of(word)
}

// Whether a word begins with a needless zero.
fn has_zeros(word: &[u8]) -> bool
    ensures { result ≡ has_zeros word.now }
{
    match word {
        [] => false,
        [first, others @ ..] => others.len() > 0 && *first == b'0',
    }
}
