//! Moments in UTC.
ghost use Rattle.std.specs.Prelude.{◌≡◌, ◌≤◌, ◌<◌, ◌==◌, IfOk, IfSome, length, slice_range, string_bytes};
ghost use Rattle.ctl_windows.specs.Moments.{clock_of, days_before_month, days_before_year, days_in, days_of, has_form, is_leap, moment_of, seconds_of};

use crate::numbers::number_within;
use std::alloc::{AllocError, Global};

const DAY: u64 = 86_400;

/// The milliseconds since the beginning of 1970 of a moment such as `2026-12-01T10:00:00Z`; `None` if the word is not a
/// moment of the years 1970 to 9999.
pub fn moment_in(word: &str) -> Option<u64>
    ensures moment { result ≡ moment_of word.now }
    ensures bound { IfSome result (λ moment. moment < 1000000000000000) }
{
    let octets = word.as_bytes();
    if !has_form(octets) {
        return None;
    }
    let day = days_in_word(octets)?;
    let second = clock_in_word(octets)?;
    Some((day * DAY + second) * 1000)
}

// Whether the signs between the numbers stand where a moment has them.
fn has_form(word: &[u8]) -> bool
    ensures { result ≡ has_form word.now }
{
    if word.len() != 20 {
        return false;
    }
    (word[4] == b'-' && word[7] == b'-')
        && ((word[10] == b'T' && word[13] == b':') && (word[16] == b':' && word[19] == b'Z'))
}

// The days since the beginning of 1970.
fn days_in_word(word: &[u8]) -> Option<u64>
    requires { length word.now ≡ 20 }
    ensures days { result ≡ days_of word.now }
    ensures bound { IfSome result (λ days. days < 10000000) }
{
    let year = number_within(&word[0..4], 1970, 9999)?;
    let month = number_within(&word[5..7], 1, 12)?;
    let day = number_within(&word[8..10], 1, days_in(year, month))?;
    Some(days_before_year(year) + days_before_month(year, month) + day - 1)
}

// The seconds since midnight.
fn clock_in_word(word: &[u8]) -> Option<u64>
    requires { length word.now ≡ 20 }
    ensures clock { result ≡ clock_of word.now }
    ensures bound { IfSome result (λ seconds. seconds < 86400) }
{
    let hour = number_within(&word[11..13], 0, 23)?;
    let minute = number_within(&word[14..16], 0, 59)?;
    let second = number_within(&word[17..19], 0, 59)?;
    Some(hour * 3600 + minute * 60 + second)
}

fn is_leap(year: u64) -> bool
    ensures { result ≡ is_leap year }
{
    year % 4 == 0 && (year % 100 != 0 || year % 400 == 0)
}

// How many days a month has.
fn days_in(year: u64, month: u64) -> u64
    ensures days { result ≡ days_in year month }
    ensures bound { result ≤ 31 }
{
    if month == 2 {
        if is_leap(year) { 29 } else { 28 }
    } else if (month == 4 || month == 6) || (month == 9 || month == 11) {
        30
    } else {
        31
    }
}

// The days from the beginning of 1970 to that of a year.
fn days_before_year(year: u64) -> u64
    requires from { 1970 ≤ year }
    requires until { year ≤ 9999 }
    ensures days { result ≡ days_before_year year }
    ensures bound { result ≤ 4000000 }
{
    let past = year - 1;
    (year - 1970) * 365 + (past / 4 + past / 400 - past / 100 - 477)
}

// The days from the beginning of a year to that of a month.
fn days_before_month(year: u64, month: u64) -> u64
    ensures days { result ≡ days_before_month year month }
    ensures bound { result ≤ 335 }
{
    let leap = if is_leap(year) { 1 } else { 0 };
    match month {
        0 | 1 => 0,
        2 => 31,
        3 => 59 + leap,
        4 => 90 + leap,
        5 => 120 + leap,
        6 => 151 + leap,
        7 => 181 + leap,
        8 => 212 + leap,
        9 => 243 + leap,
        10 => 273 + leap,
        11 => 304 + leap,
        _ => 334 + leap,
    }
}

/// The text of a moment of the years 1970 to 9999, in milliseconds since the beginning of 1970, without its milliseconds.
pub fn moment_text(alloc: Global, moment: u64) -> Result<String, AllocError> {
    let seconds = moment / 1000;
    let (days, clock) = (seconds / DAY, seconds % DAY);
    let (hour, minute, second) = (clock / 3600, clock / 60 % 60, clock % 60);
    let (year, day_of_year) = year_of(days);
    let (month, day) = month_of(year, day_of_year);
    format!(in alloc; "{year:04}-{month:02}-{day:02}T{hour:02}:{minute:02}:{second:02}Z")
}

// The year of a day since the beginning of 1970, and the day in it, from 0.
fn year_of(days: u64) -> (u64, u64) {
    let guess = (days / 365).saturating_add(1970).min(9999);
    for back in 0..9 {
        let year = guess.saturating_sub(back).max(1970);
        let before = days_before_year(year);
        if before <= days {
            return (year, days - before);
        }
    }
    (1970, days)
}

// The month of a day of a year, and the day in it, from 1.
fn month_of(year: u64, day_of_year: u64) -> (u64, u64) {
    for back in 0..12 {
        let month = 12 - back;
        let before = days_before_month(year, month);
        if before <= day_of_year {
            return (month, (day_of_year - before).saturating_add(1));
        }
    }
    (1, 1)
}
