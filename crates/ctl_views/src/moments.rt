//! Reads moments in the form that the station writes.
ghost use Rattle.std.specs.Prelude.{◌≤◌};

use std::alloc::{AllocError, Global};

const SECOND: u64 = 1000;

const MINUTE: u64 = 60 * SECOND;

const HOUR: u64 = 60 * MINUTE;

const DAY: u64 = 24 * HOUR;

// A moment that supplies what is left out: what is given replaces its beginning.
const FORM: &str = "0000-01-01T00:00:00.000Z";

/// The milliseconds of a moment such as `2026-11-26T12:00:00.000Z`, counted from a fixed day. Its end may be left out,
/// down to the day: then the first such moment is meant. `None` where the word is not a moment, or is before March of the
/// year 0.
pub fn moment_begun(alloc: Global, word: &str) -> Result<Option<u64>, AllocError> {
    let word = word.strip_suffix('Z').unwrap_or(word);
    if word.len() < 10 || word.len() >= FORM.len() {
        return Ok(None);
    }
    let Some(rest) = FORM.get(word.len()..) else {
        return Ok(None);
    };
    let moment = format!(in alloc; "{word}{rest}")?;
    Ok(milliseconds_of(moment.as_str()))
}

// Whether each octet is a digit where a moment has one, and elsewhere the sign that a moment has there.
fn has_form(word: &str) -> bool {
    word.as_bytes().iter().zip(FORM.as_bytes().iter()).all(|(octet, sign)| octet == sign
        || octet.is_ascii_digit() && sign.is_ascii_digit())
}

/// The milliseconds of a moment such as `2026-11-26T12:00:00.000Z`, counted from a fixed day; `None` where the text is
/// not a moment, or is before March of the year 0.
pub(crate) fn milliseconds_of(moment: &str) -> Option<u64> {
    let octets = moment.as_bytes();
    if octets.len() != FORM.len() || !has_form(moment) {
        return None;
    }
    let (year, month) = (number_at(octets, 0, 4)?, number_at(octets, 5, 2)?);
    let day = number_at(octets, 8, 2)?;
    if day == 0 || day > days_in(year, month) {
        return None;
    }
    let days = days_of(year, month)?.saturating_add(day);
    Some(days.saturating_mul(DAY).saturating_add(time_of(octets)?))
}

// The milliseconds since midnight.
fn time_of(octets: &[u8]) -> Option<u64> {
    let hours = number_below(octets, 11, 24)?.saturating_mul(HOUR);
    let minutes = number_below(octets, 14, 60)?.saturating_mul(MINUTE);
    let seconds = number_below(octets, 17, 60)?.saturating_mul(SECOND);
    let rest = number_at(octets, 20, 3)?;
    Some(
        hours
            .saturating_add(minutes)
            .saturating_add(seconds)
            .saturating_add(rest),
    )
}

// The number in two decimal digits, if it is below a limit.
fn number_below(octets: &[u8], from: usize, limit: u64) -> Option<u64> {
    match number_at(octets, from, 2) {
        Some(number) if number < limit => Some(number),
        _ => None,
    }
}

// How many days a month of a year has; 0 where there is no such month.
fn days_in(year: u64, month: u64) -> u64 {
    match month {
        2 if is_leap(year) => 29,
        2 => 28,
        4 | 6 | 9 | 11 => 30,
        1 | 3 | 5 | 7 | 8 | 10 | 12 => 31,
        _ => 0,
    }
}

fn is_leap(year: u64) -> bool {
    year % 4 == 0 && (year % 100 != 0 || year % 400 == 0)
}

// The days before a month in the Gregorian calendar, for years that begin in March.
fn days_of(year: u64, month: u64) -> Option<u64> {
    let (year, month) = if month > 2 {
        (year, month - 3)
    } else {
        (year.checked_sub(1)?, month.saturating_add(9))
    };
    let leaps = (year / 4)
        .saturating_add(year / 400)
        .saturating_sub(year / 100);
    let days = year.saturating_mul(365).saturating_add(leaps);
    Some(days.saturating_add(month.saturating_mul(153).saturating_add(2) / 5))
}

// The number in this many decimal digits.
fn number_at(octets: &[u8], from: usize, count: usize) -> Option<u64> {
    let mut number = 0u64;
    for digit in octets.get(from..from.saturating_add(count))? {
        if !digit.is_ascii_digit() {
            return None;
        }
        number = number
            .saturating_mul(10)
            .saturating_add(u64::from(digit.saturating_sub(b'0')));
    }
    Some(number)
}
