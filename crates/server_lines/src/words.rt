//! Single words, as they are written in a command.
ghost use Rattle.std.specs.Prelude.{◌≡◌, ◌++◌, ◌<◌, OnOk, flat_map};
ghost use Rattle.std.specs.List.{list_all};
ghost use Rattle.server_lines.specs.Words.{hex_digit, is_marked, is_plain, is_plain_octet, is_printable, quoted_octet, word_octets};

use std::alloc::AllocError;

/// Adds a word, in quotes if it needs them.
pub(crate) fn push_word(words: &mut Vec<u8>, word: &[u8]) -> Result<(), AllocError>
    ensures { OnOk result (words.new.items ≡ words.old.items ++ word_octets word.now) }
{
    if is_plain(word) {
        return words.extend_from_slice(word);
    }
    words.extend_from_slice(b"\"")?;
    push_inner(words, word)?;
    words.extend_from_slice(b"\"")
}

// Adds the text between a word's quotes.
fn push_inner(words: &mut Vec<u8>, word: &[u8]) -> Result<(), AllocError>
    ensures { OnOk result (words.new.items ≡ words.old.items ++ flat_map quoted_octet word.now) }
{
    for octet in word {
        push_octet(words, *octet)?;
    }
    Ok(())
}

// Adds an octet as it is written between quotes.
fn push_octet(words: &mut Vec<u8>, octet: u8) -> Result<(), AllocError>
    ensures { OnOk result (words.new.items ≡ words.old.items ++ quoted_octet octet) }
{
    if is_marked(octet) {
        words.extend_from_slice(&[b'\\', octet])
    } else if is_printable(octet) {
        words.extend_from_slice(&[octet])
    } else {
        words.extend_from_slice(&[b'\\', b'x', hex_digit(octet / 16), hex_digit(octet % 16)])
    }
}

// The hex digit of a number below sixteen.
fn hex_digit(number: u8) -> u8
    requires { number < 16 }
    ensures { result ≡ hex_digit number }
{
    if number < 10 {
        b'0' + number
    } else {
        b'a' + (number - 10)
    }
}

// Whether a word needs no quotes.
fn is_plain(word: &[u8]) -> bool
    ensures { result ≡ is_plain word.now }
{
    if word.is_empty() {
        false
    } else {
        are_plain(word)
    }
}

// Whether no octet of a word makes quotes necessary.
fn are_plain(word: &[u8]) -> bool
    ensures { result ≡ list_all is_plain_octet word.now }
{
    word.iter().all(|octet| is_plain_octet(*octet))
}

// Whether an octet doesn't make quotes necessary.
fn is_plain_octet(octet: u8) -> bool
    ensures { result ≡ is_plain_octet octet }
{
    octet.is_ascii_graphic() && !is_marked(octet)
}

// Whether an octet is a printable ASCII character.
fn is_printable(octet: u8) -> bool
    ensures { result ≡ is_printable octet }
{
    octet == b' ' || octet.is_ascii_graphic()
}

// Whether an octet needs a backslash between quotes.
fn is_marked(octet: u8) -> bool
    ensures { result ≡ is_marked octet }
{
    octet == b'"' || octet == b'\\'
}
