//! Parts of commands.
ghost use Rattle.std.specs.Prelude.{◌≡◌, ◌++◌, OnOk};
ghost use Rattle.server_lines.specs.CommandWords.{alias_octets, aliased, class_number, closure_octets, names_octets, number_octets, urgent_octets, user_octets};

use crate::words::push_word;
use cfdp_types::{Class, Octets};
use entity_config::Config;
use std::alloc::{AllocError, Global};

/// Adds a number, with a space before it.
pub(crate) fn push_number(alloc: Global, words: &mut Vec<u8>, number: u64) -> Result<(), AllocError>
    ensures { OnOk result (words.new.items ≡ words.old.items ++ number_octets number) }
{
    let text = format!(in alloc; " {number}")?;
    words.extend_from_slice(text.as_bytes())
}

/// Adds a user, by the name in a configuration.
pub(crate) fn push_user(words: &mut Vec<u8>, config: &Config, user: usize) -> Result<(), AllocError>
    ensures { OnOk result (words.new.items ≡ words.old.items ++ user_octets config.now user) }
{
    match config.name_of(user) {
        Some(name) => push_word(words, name.as_bytes()),
        None => push_word(words, b""),
    }
}

/// The number of a class.
pub(crate) fn class_number(class: Class) -> u64
    ensures { result ≡ class_number class }
{
    match class {
        Class::One => 1,
        Class::Two => 2,
    }
}

/// Adds the two names of a file.
pub(crate) fn push_names(
    words: &mut Vec<u8>,
    source: &Octets,
    target: &Octets,
) -> Result<(), AllocError>
    ensures { OnOk result (words.new.items ≡ words.old.items ++ names_octets source.now target.now) }
{
    words.extend_from_slice(b" ")?;
    push_word(words, source.as_slice())?;
    words.extend_from_slice(b" ")?;
    push_word(words, target.as_slice())
}

/// The word of a file whose receiver is asked to report what became of it.
pub(crate) fn closure_word(closure: bool) -> &'static [u8]
    ensures { result.now ≡ closure_octets closure }
{
    if closure { b" closure" } else { b"" }
}

/// The word of a file that goes before others of its user.
pub(crate) fn urgent_word(is_urgent: bool) -> &'static [u8]
    ensures { result.now ≡ urgent_octets is_urgent }
{
    if is_urgent { b" urgent" } else { b"" }
}

/// Adds the source file name that the receiver learns, if that is another than the path.
pub(crate) fn push_aliased(words: &mut Vec<u8>, name: &Option<Octets>) -> Result<(), AllocError>
    ensures { OnOk result (words.new.items ≡ words.old.items ++ aliased name.now) }
{
    match name {
        Some(name) => push_alias(words, name),
        None => Ok(()),
    }
}

fn push_alias(words: &mut Vec<u8>, name: &Octets) -> Result<(), AllocError>
    ensures { OnOk result (words.new.items ≡ words.old.items ++ alias_octets name.now) }
{
    words.extend_from_slice(b" as ")?;
    push_word(words, name.as_slice())
}
