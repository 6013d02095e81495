//! Values as they are written in TOML.
use std::alloc::AllocError;
use toml::Value;

/// Adds a value in a few words: a text in quotes, a number, or what else it is.
pub fn push_value(text: &mut String, value: &Value) -> Result<(), AllocError> {
    if let Some(word) = value.as_str() {
        return push_quoted(text, word);
    }
    if let Some(number) = value.as_integer() {
        return write!(text, "{number}");
    }
    if let Some(truth) = value.as_bool() {
        return write!(text, "{truth}");
    }
    text.push_str(if value.is_table() {
        "a table"
    } else if value.is_array() {
        "an array"
    } else if value.is_float() {
        "a number with a fraction"
    } else {
        "a date or a time"
    })
}

// Adds a text in quotes, in one line.
fn push_quoted(text: &mut String, word: &str) -> Result<(), AllocError> {
    text.push_str("\"")?;
    for letter in word.chars() {
        if letter.is_control() {
            text.push_str("?")?;
        } else {
            text.push(letter)?;
        }
    }
    text.push_str("\"")
}
