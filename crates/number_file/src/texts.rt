//! The text of a number.
ghost use Rattle.std.specs.Prelude.{◌≡◌};
ghost use Rattle.std.specs.Char.{is_ascii_digit};
ghost use Rattle.std.specs.List.{list_all};
ghost use Rattle.number_file.specs.Texts.{line_of, number_in, value_of};

use crate::rounds::LAST_NUMBER;

/// The number in a text of decimal digits, with or without a line feed at its end; None for other texts and for numbers
/// above `LAST_NUMBER`.
pub(crate) fn number_in(text: &[u8]) -> Option<u64>
    ensures { result ≡ number_in text.now }
{
    value_of(line_of(text))
}

// A text without the line feed at its end.
fn line_of(text: &[u8]) -> &[u8]
    ensures { result.now ≡ line_of text.now }
{
    match text.split_last() {
        Some((b'\n', line)) => line,
        _ => text,
    }
}

// The number of decimal digits.
fn value_of(digits: &[u8]) -> Option<u64>
    ensures { result ≡ value_of digits.now }
{
    if digits.is_empty() || !are_digits(digits) {
        return None;
    }
    let number = str::from_utf8(digits).ok()?.parse::<u64>().ok()?;
    if number <= LAST_NUMBER {
        Some(number)
    } else {
        None
    }
}

// Whether all are decimal digits.
fn are_digits(octets: &[u8]) -> bool
    ensures { result ≡ list_all is_ascii_digit octets.now }
{
    octets.iter().all(|octet| octet.is_ascii_digit())
}
