//! Members of a JSON object.
use crate::amounts::percent_of;
use crate::moments::milliseconds_of;
use crate::shown::hex_digit;
use json::{Error, Scratch, Value};
use station_names::member;
use std::alloc::{AllocError, Global};

/// Parses a line; `None` where it is not JSON.
pub(crate) fn value_of<'a>(
    alloc: Global,
    line: &'a str,
    scratch: &'a mut Scratch,
) -> Result<Option<Value<'a>>, AllocError> {
    scratch.reserve(line.len())?;
    match Value::parse(alloc, line, scratch) {
        Ok(value) => Ok(Some(value)),
        Err(Error::OutOfMemory) => Err(AllocError),
        Err(_) => Ok(None),
    }
}

/// A member that is text.
pub(crate) fn text_in<'a>(value: &Value<'a>, name: &str) -> Option<&'a str> {
    value.get(name)?.as_str()
}

/// A member that is a number of at most 64 bits.
pub(crate) fn number_in(value: &Value<'_>, name: &str) -> Option<u64> {
    value.get(name)?.as_u64()
}

/// The items of a member that is a list.
pub(crate) fn items_in<'v, 'a>(value: &'v Value<'a>, name: &str) -> Option<&'v [Value<'a>]> {
    match value.get(name) {
        Some(Value::Array(items)) => Some(items.as_slice()),
        _ => None,
    }
}

/// Whether a member is present and true.
pub(crate) fn is_set(value: &Value<'_>, name: &str) -> bool {
    match value.get(name) {
        Some(member) => member.as_bool() == Some(true),
        None => false,
    }
}

/// A member that is a moment, in milliseconds.
pub(crate) fn moment_in(value: &Value<'_>, name: &str) -> Option<u64> {
    milliseconds_of(text_in(value, name)?)
}

/// How much of a file is there, in whole percent; `None` if its size isn't known.
pub(crate) fn share_in(value: &Value<'_>) -> Option<u64> {
    let octets = number_in(value, member::OCTETS).unwrap_or(0);
    Some(percent_of(octets, number_in(value, member::SIZE)?))
}

/// Adds a file's name: its text, or the octets of a name that isn't UTF-8, where a backslash and those that aren't
/// graphic ASCII characters are in hex; a question mark if there is no name.
pub(crate) fn push_name(
    alloc: Global,
    text: &mut String,
    value: &Value<'_>,
    name: &str,
) -> Result<(), AllocError> {
    if let Some(word) = text_in(value, name) {
        return text.push_str(word);
    }
    let hex_name = format!(in alloc; "{name}{}", member::HEX_ENDING)?;
    match text_in(value, hex_name.as_str()) {
        Some(digits) => push_decoded(alloc, text, digits),
        None => text.push('?'),
    }
}

// Adds the text that hex digits encode, or the digits themselves if they aren't hex.
fn push_decoded(alloc: Global, text: &mut String, digits: &str) -> Result<(), AllocError> {
    match hex::decode(alloc, digits) {
        Ok(octets) => {
            for octet in octets.as_slice() {
                push_octet(text, *octet)?;
            }
            Ok(())
        }
        Err(_) => text.push_str(digits),
    }
}

fn push_octet(text: &mut String, octet: u8) -> Result<(), AllocError> {
    if octet.is_ascii_graphic() && octet != b'\\' {
        return text.push(char::from(octet));
    }
    text.push_str("\\x")?;
    text.push(hex_digit(octet / 16))?;
    text.push(hex_digit(octet % 16))
}
