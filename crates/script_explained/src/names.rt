//! Words for codes and names. Each function appends to `text`; after an `Err` the text is not to be used.
ghost use Rattle.std.specs.Prelude.{◌≡◌, ◌++◌, OnOk, string_bytes};
ghost use Rattle.std.specs.Option.{option_copied};
ghost use Rattle.script_explained.specs.Words.{condition_text, condition_words, delivery_words, file_words, hex_text, is_shown, name_text, shown_of, status_words};

use cfdp_types::{Condition, Delivery, FileStatus};
use pdu_values::TransactionStatus;
use std::alloc::{AllocError, Global};

/// What a condition code means.
pub fn condition_words(code: u8) -> &'static str
    ensures { result.now ≡ condition_words code }
{
    match code {
        0 => "no error",
        1 => "positive ACK limit reached",
        2 => "Keep Alive limit reached",
        3 => "invalid transmission mode",
        4 => "filestore rejection",
        5 => "file checksum failure",
        6 => "file size error",
        7 => "NAK limit reached",
        8 => "inactivity detected",
        9 => "invalid file structure",
        10 => "check limit reached",
        11 => "unsupported checksum type",
        14 => "suspend requested",
        15 => "cancel requested",
        _ => "reserved",
    }
}

/// Adds a condition: its number, unless that is 0, and what it means.
pub fn push_condition(text: &mut String, condition: Condition) -> Result<(), AllocError>
    ensures { OnOk result (string_bytes text.new ≡ string_bytes text.old ++ condition_text condition) }
{
    let code = condition.code();
    let words = condition_words(code);
    if code == 0 {
        text.push_str(words)
    } else {
        write!(text, "condition {code}, {words}")
    }
}

pub(crate) fn delivery_words(delivery: Delivery) -> &'static str
    ensures { result.now ≡ delivery_words delivery }
{
    match delivery {
        Delivery::Complete => "the file is complete",
        Delivery::Incomplete => "the file is incomplete",
    }
}

pub(crate) fn file_words(status: FileStatus) -> &'static str
    ensures { result.now ≡ file_words status }
{
    match status {
        FileStatus::Discarded => "discarded",
        FileStatus::Rejected => "rejected by the file store",
        FileStatus::Retained => "retained",
        FileStatus::Unreported => "its status is not reported",
    }
}

pub(crate) fn status_words(status: TransactionStatus) -> &'static str
    ensures { result.now ≡ status_words status }
{
    match status {
        TransactionStatus::Undefined => "transaction undefined",
        TransactionStatus::Active => "transaction active",
        TransactionStatus::Terminated => "transaction terminated",
        TransactionStatus::Unrecognized => "transaction unrecognized",
    }
}

/// Adds a file name: as it stands if it is printable ASCII without spaces, otherwise in hex.
pub(crate) fn push_name(alloc: Global, text: &mut String, name: &[u8]) -> Result<(), AllocError>
    ensures { OnOk result (string_bytes text.new ≡ string_bytes text.old ++ name_text name.now) }
{
    match shown_of(name) {
        Some(shown) => text.push_str(shown),
        None => push_digits(alloc, text, name),
    }
}

fn push_digits(alloc: Global, text: &mut String, name: &[u8]) -> Result<(), AllocError>
    ensures { OnOk result (string_bytes text.new ≡ string_bytes text.old ++ hex_text name.now) }
{
    let digits = hex::encode(alloc, name)?;
    text.push_str("0x")?;
    text.push_str(digits.as_str())
}

// The name as text, if it is printable ASCII without spaces.
fn shown_of(name: &[u8]) -> Option<&str>
    ensures { option_copied result ≡ shown_of name.now }
{
    if !is_shown(name) {
        return None;
    }
    match str::from_utf8(name) {
        Ok(shown) => Some(shown),
        Err(_) => None,
    }
}

fn is_shown(name: &[u8]) -> bool
    ensures { result ≡ is_shown name.now }
{
    name.iter().all(|octet| *octet < 127 && *octet > 32)
}
