//! The line of a key in a text.
ghost use Rattle.std.specs.Prelude.{◌≡◌};
ghost use Rattle.fault_texts.specs.Scans.{line_of};

use crate::scan::{START, Sought};

/// The line of a key, counted from 1. If the key isn't in the text, it is that of the table where it should be; if that
/// isn't there either, `None`.
pub fn line_of(text: &str, sought: &Sought<'_>) -> Option<u64>
    ensures { result ≡ line_of sought.now text.now }
{
    let scan = text
        .as_bytes()
        .iter()
        .fold(START, |scan, octet| scan.after(*octet, sought));
    if scan.line == 0 {
        None
    } else {
        Some(scan.line)
    }
}
