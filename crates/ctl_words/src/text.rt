//! Makes the text of a command.
ghost use Rattle.std.specs.Prelude.{◌≡◌, IfOk, IfSome, codes, is_some, length, nat_le, nat_lt, string_bytes};
ghost use Rattle.std.specs.List.{join_by, list_all};
ghost use Rattle.ctl_words.specs.Commands.{has_long_name, is_inner, is_word};

use std::alloc::{AllocError, Global};

/// How many octets a server's command may have, line feed included.
pub const COMMAND_OCTETS: u64 = 131_072;

// How many octets a path and a file's name may have in a command.
const NAME_OCTETS: usize = 255;

/// Whether a command, given without its line feed, is too long for a server.
pub fn is_too_long(command: &[u8]) -> bool
    ensures { result ≡ nat_le 131072 (length command.now) }
{
    command.len() as u64 >= COMMAND_OCTETS
}

/// Whether a file's path or its name at the receiver is too long for a command.
pub fn has_long_name(source: &str, target: &str) -> bool
    ensures { result ≡ has_long_name source.now target.now }
{
    source.len() > NAME_OCTETS || target.len() > NAME_OCTETS
}

/// The text of a command with these words, separated by spaces. `None` if one of them is empty, or has a space or a
/// line feed, so that a server would read it as other words.
pub fn command_text(alloc: Global, words: &[&str]) -> Result<Option<String>, AllocError>
    ensures text { IfOk result (λ found. IfSome found
        (λ text. string_bytes text ≡ join_by (λ word. word.now) (codes " ") words.now)) }
    ensures which { IfOk result (λ found. is_some found ≡ list_all (λ word. is_word word.now) words.now) }
{
    if !are_words(words) {
        return Ok(None);
    }
    let text = words.join(alloc, " ")?;
    Ok(Some(text))
}

// Whether a server reads each text as one word.
fn are_words(words: &[&str]) -> bool
    ensures { result ≡ list_all (λ word. is_word word.now) words.now }
{
    words.iter().all(|word| is_word(word))
}

// Whether a server reads a text as one word.
fn is_word(text: &str) -> bool
    ensures { result ≡ is_word text.now }
{
    if text.is_empty() {
        false
    } else {
        are_inner(text.as_bytes())
    }
}

// Whether no octet ends a word or a line.
fn are_inner(octets: &[u8]) -> bool
    ensures { result ≡ list_all is_inner octets.now }
{
    octets.iter().all(|octet| is_inner(*octet))
}

// Whether an octet ends neither a word nor a line.
fn is_inner(octet: u8) -> bool
    ensures { result ≡ is_inner octet }
{
    !(octet == b' ' || octet == b'\n')
}
