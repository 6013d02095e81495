ghost use Rattle.std.specs.Prelude.{◌≡◌, ◌≤◌, ◌++◌, IfOk, OnOk, string_bytes};
ghost use Rattle.station_lines.specs.Moments.{date_of, date_text, time_text, moment_text};

use std::alloc::{AllocError, Global};

const SECOND: u64 = 1000;

const MINUTE: u64 = 60 * SECOND;

const HOUR: u64 = 60 * MINUTE;

const DAY: u64 = 24 * HOUR;

/// Milliseconds since the start of 1970 in UTC, without leap seconds.
#[derive(Clone, Copy, Debug, PartialEq, Eq)]
pub struct Moment(pub u64);

impl Moment {
    /// The moment as text, such as `2026-11-26T12:00:00.000Z`. From the year 10000 on, the year has more than four
    /// digits.
    pub fn text(self, alloc: Global) -> Result<String, AllocError>
        ensures { IfOk result (λ text. string_bytes text ≡ moment_text self) }
    {
        let mut text = String::new(alloc);
        push_date(&mut text, date_of(self.0 / DAY))?;
        push_time(&mut text, self.0 % DAY)?;
        Ok(text)
    }
}

// A day of the Gregorian calendar.
#[derive(Clone, Copy)]
struct Date {
    year: u64,
    month: u64,
    day: u64,
}

// The day with this number: 0 for the first of January 1970.
fn date_of(number: u64) -> Date
    requires { number ≤ 213_503_982_334 }
    ensures { result ≡ date_of number }
{
    let quarters = 4 * (number + 719_468) + 3;
    let century = quarters / 146_097;
    let quarters = quarters % 146_097 / 4 * 4 + 3;
    let fifths = 5 * (quarters % 1461 / 4) + 461;
    let year = 100 * century + quarters / 1461;
    let month = fifths / 153;
    let day = fifths % 153 / 5 + 1;
    if month > 12 {
        Date {
            year: year + 1,
            month: month - 12,
            day,
        }
    } else {
        Date { year, month, day }
    }
}

fn push_date(text: &mut String, date: Date) -> Result<(), AllocError>
    ensures { OnOk result (string_bytes text.new ≡ string_bytes text.old ++ date_text date) }
{
    let Date { year, month, day } = date;
    write!(text, "{year:04}-{month:02}-{day:02}")
}

// Adds the time of day, from the milliseconds since midnight.
fn push_time(text: &mut String, milliseconds: u64) -> Result<(), AllocError>
    ensures { OnOk result (string_bytes text.new ≡ string_bytes text.old ++ time_text milliseconds) }
{
    let hours = milliseconds / HOUR;
    let minutes = milliseconds % HOUR / MINUTE;
    let seconds = milliseconds % MINUTE / SECOND;
    let rest = milliseconds % SECOND;
    write!(text, "T{hours:02}:{minutes:02}:{seconds:02}.{rest:03}Z")
}
