//! Single words of a command, read as operands.
ghost use Rattle.std.specs.Prelude.{◌≡◌};
ghost use Rattle.std.specs.Option.{option_copied};
ghost use Rattle.line_words.specs.Operands.{closure_of};
ghost use Rattle.server_lines.specs.Commands.{file_name_of};

use cfdp_types::limits::NAME_OCTETS;
use line_words::Words;

/// A file name: neither empty nor too long.
pub(crate) fn file_name_of(word: &[u8]) -> Option<&[u8]>
    ensures { option_copied result ≡ file_name_of word.now }
{
    if word.is_empty() || word.len() > NAME_OCTETS {
        None
    } else {
        Some(word)
    }
}

/// Whether closure is asked for, by the words after all other operands: true for the single word `closure`, false for
/// no word, and `None` for anything else.
pub(crate) fn closure_of(rest: Words<'_>) -> Option<bool>
    ensures { result ≡ closure_of rest.entry }
{
    let Some((word, rest)) = rest.next() else {
        return Some(false);
    };
    match rest.next() {
        None if word == b"closure".as_slice() => Some(true),
        _ => None,
    }
}
