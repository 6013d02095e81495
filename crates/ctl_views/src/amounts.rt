//! Amounts in a form for people.
ghost use Rattle.std.specs.Prelude.{◌≡◌};
ghost use Rattle.ctl_views.specs.Amounts.{percent};

use std::alloc::AllocError;

const KIBI: u64 = 1024;

/// Adds an amount of octets: whole below 1,024, else in KiB, MiB or GiB with a tenth.
pub(crate) fn push_octets(text: &mut String, octets: u64) -> Result<(), AllocError> {
    if octets < KIBI {
        write!(text, "{octets} B")
    } else if octets < KIBI * KIBI {
        push_tenths(text, octets, KIBI, "KiB")
    } else if octets < KIBI * KIBI * KIBI {
        push_tenths(text, octets, KIBI * KIBI, "MiB")
    } else {
        push_tenths(text, octets, KIBI * KIBI * KIBI, "GiB")
    }
}

// Adds an amount in a unit, rounded down to a tenth.
fn push_tenths(text: &mut String, octets: u64, unit: u64, name: &str) -> Result<(), AllocError> {
    let whole = octets.checked_div(unit).unwrap_or(0);
    let rest = octets.checked_rem(unit).unwrap_or(0);
    let tenth = rest.saturating_mul(10).checked_div(unit).unwrap_or(0);
    write!(text, "{whole}.{tenth} {name}")
}

/// Adds a rate in octets a second; a dash if it isn't known.
pub(crate) fn push_rate(text: &mut String, rate: Option<u64>) -> Result<(), AllocError> {
    match rate {
        Some(octets) => {
            push_octets(text, octets)?;
            text.push_str("/s")
        }
        None => text.push('-'),
    }
}

/// Adds a span of time, given in milliseconds: seconds with a tenth, or minutes, hours or days.
pub(crate) fn push_age(text: &mut String, milliseconds: u64) -> Result<(), AllocError> {
    if milliseconds < 10_000 {
        let seconds = milliseconds / 1000;
        let tenth = milliseconds / 100 % 10;
        return write!(text, "{seconds}.{tenth} s");
    }
    let (amount, unit) = age_of(milliseconds / 1000);
    write!(text, "{amount} {unit}")
}

// A number of seconds in its largest suitable unit.
fn age_of(seconds: u64) -> (u64, &'static str) {
    if seconds < 120 {
        (seconds, "s")
    } else if seconds < 7200 {
        (seconds / 60, "min")
    } else if seconds < 172_800 {
        (seconds / 3600, "h")
    } else {
        (seconds / 86_400, "d")
    }
}

/// Adds a file's progress: a bar, the whole percent, and the octets.
pub fn push_progress(text: &mut String, octets: u64, size: u64) -> Result<(), AllocError> {
    let percent = percent_of(octets, size);
    push_bar(text, percent)?;
    write!(text, " {percent:>3}% ")?;
    push_octets(text, octets)?;
    text.push_str(" of ")?;
    push_octets(text, size)
}

/// How much of a file is there, in whole percent: 100 of an empty file, and never more.
pub(crate) fn percent_of(octets: u64, size: u64) -> u64
    ensures { result ≡ percent octets size }
{
    if octets >= size {
        100
    } else {
        (u128::from(octets) * 100 / u128::from(size)).min(100) as u64
    }
}

/// Adds a bar of ten places, one for each ten percent.
pub(crate) fn push_bar(text: &mut String, percent: u64) -> Result<(), AllocError> {
    text.push('[')?;
    for place in 0..10 {
        text.push(if place < percent / 10 { '#' } else { '.' })?;
    }
    text.push(']')
}
