//! Single words of a line, read as operands.
ghost use Rattle.std.specs.Prelude.{◌≡◌, nat_lt};
ghost use Rattle.std.specs.List.{list_all};
ghost use Rattle.std.specs.Option.{option_copied};
ghost use Rattle.line_words.specs.Words.{words_left};
ghost use Rattle.line_words.specs.Operands.{number_of, key_from, name_of, class_of, closure_of, request_for};

use crate::words::{Rest, decimal, next_word};
use cfdp_types::{Class, EntityId, TxnKey};
use entity_routing::Request;

/// A number of at most 64 bits, in decimal.
pub fn number_of(word: &[u8]) -> Option<u64>
    ensures { result ≡ number_of word.now }
{
    decimal(word, u64::MAX)
}

/// A transaction ID, from its two numbers: source entity and sequence number.
pub fn key_from(source: &[u8], seq: &[u8]) -> Option<TxnKey>
    ensures { result ≡ key_from source.now seq.now }
{
    let source = EntityId(number_of(source)?);
    let seq = number_of(seq)?;
    Some(TxnKey { source, seq })
}

fn is_ascii(word: &[u8]) -> bool
    ensures { result ≡ list_all (λ octet. nat_lt octet 128) word.now }
{
    word.iter().all(|octet| *octet < 128)
}

/// The word as a name, if it is ASCII.
pub fn name_of(word: &[u8]) -> Option<&[u8]>
    ensures { option_copied result ≡ name_of word.now }
{
    if is_ascii(word) { Some(word) } else { None }
}

/// A class, from its number: 1 or 2.
pub fn class_of(word: &[u8]) -> Option<Class>
    ensures { result ≡ class_of word.now }
{
    match decimal(word, 2)? {
        1 => Some(Class::One),
        2 => Some(Class::Two),
        _ => None,
    }
}

/// Whether a put requests closure, by the words after its operands: true for the single word `closure`, false for no
/// word, and `None` for anything else.
pub fn closure_of(rest: Rest<'_>) -> Option<bool>
    ensures { result ≡ closure_of (words_left (option_copied rest.entry)) }
{
    let Some((word, rest)) = next_word(rest) else {
        return Some(false);
    };
    match next_word(rest) {
        None if word == b"closure".as_slice() => Some(true),
        _ => None,
    }
}

/// The request on a transaction that the first word of a line names; `None` for a word that isn't a request.
pub fn request_for(kind: &[u8], key: TxnKey) -> Option<Request>
    ensures { result ≡ request_for kind.now key }
{
    if kind == b"cancel".as_slice() {
        Some(Request::Cancel(key))
    } else if kind == b"suspend".as_slice() {
        Some(Request::Suspend(key))
    } else if kind == b"resume".as_slice() {
        Some(Request::Resume(key))
    } else if kind == b"report".as_slice() {
        Some(Request::Report(key))
    } else if kind == b"abandon".as_slice() {
        Some(Request::Abandon(key))
    } else {
        None
    }
}
