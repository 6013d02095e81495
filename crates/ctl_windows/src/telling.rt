//! Faults in words, and the commands for a server.
ghost use Rattle.std.specs.Prelude.{◌≡◌, IfOk, string_bytes};
ghost use Rattle.std.specs.Option.{option_map};
ghost use Rattle.ctl_windows.specs.Commands.{hold_octets, rate_octets, release_octets};

use crate::moments::moment_text;
use crate::plan::Fault;
use crate::window::{Rate, Why, Window};
use std::alloc::{AllocError, Global};

/// The words for a fault.
pub fn fault_text(alloc: Global, fault: &Fault) -> Result<String, AllocError> {
    let (line, word) = (fault.line, fault.word.as_str());
    let mut text = format!(in alloc; "line {line}: '{word}' ")?;
    match fault.why {
        Why::Short => text.push_str(
            "begins a line with fewer than three words: FROM UNTIL ENTITY [RATE]",
        )?,
        Why::Long => text.push_str("is one word too many: FROM UNTIL ENTITY [RATE]")?,
        Why::Moment => text.push_str("is not a moment in UTC, such as 2026-12-01T10:00:00Z")?,
        Why::Order => text.push_str("is not after the beginning of its window")?,
        Why::Remote => text.push_str("is not the number of an entity")?,
        Why::Rate => {
            text.push_str("is not a number of octets a second from 1 to 1000000000, or off")?;
        }
        Why::Overlap(other) => write!(text, "begins before the window of line {other} has ended")?,
        Why::Unknown => text.push_str("is not an entity of the server")?,
    }
    Ok(text)
}

/// The command that holds the link to an entity.
pub fn hold_command(alloc: Global, remote: u64) -> Result<String, AllocError>
    ensures { IfOk result (λ text. string_bytes text ≡ hold_octets remote) }
{
    format!(in alloc; "hold {remote}")
}

/// The command that opens the link to an entity for so many seconds.
pub fn release_command(alloc: Global, remote: u64, seconds: u64) -> Result<String, AllocError>
    ensures { IfOk result (λ text. string_bytes text ≡ release_octets remote seconds) }
{
    format!(in alloc; "release {remote} {seconds}")
}

/// The command that limits the rate to an entity; `None` if a window does nothing to it.
pub fn rate_command(alloc: Global, remote: u64, rate: Rate) -> Result<Option<String>, AllocError>
    ensures { IfOk result (λ command. option_map string_bytes command ≡ rate_octets remote rate) }
{
    match rate {
        Rate::Same => Ok(None),
        Rate::Off => Ok(Some(format!(in alloc; "rate {remote} off")?)),
        Rate::Octets(octets) => Ok(Some(format!(in alloc; "rate {remote} {octets}")?)),
    }
}

/// The line above the rows of a plan.
pub fn row_head() -> &'static str {
    "entity  from                  until                 rate            now"
}

/// A window as a row: its entity, when it begins and ends, its rate, and what it is at a moment.
pub fn row_text(alloc: Global, window: Window, now: u64) -> Result<String, AllocError> {
    let (from, until) = (
        moment_text(alloc, window.from)?,
        moment_text(alloc, window.until)?,
    );
    let (remote, rate) = (window.remote, rate_text(alloc, window.rate)?);
    let mut row = format!(in alloc; "{remote:<6}  {from}  {until}  {rate:<14}  ")?;
    push_state(&mut row, window, now)?;
    Ok(row)
}

/// A rate in words; a dash if a window does nothing to it.
pub fn rate_text(alloc: Global, rate: Rate) -> Result<String, AllocError> {
    match rate {
        Rate::Same => String::from_str(alloc, "-"),
        Rate::Off => String::from_str(alloc, "no limit"),
        Rate::Octets(octets) => format!(in alloc; "{octets} B/s"),
    }
}

// Adds what a window is at a moment.
fn push_state(row: &mut String, window: Window, now: u64) -> Result<(), AllocError> {
    if now < window.from {
        row.push_str("in ")?;
        push_span(row, window.from - now)
    } else if now < window.until {
        row.push_str("open, ")?;
        push_span(row, window.until - now)?;
        row.push_str(" left")
    } else {
        row.push_str("over")
    }
}

/// Adds a span of time, given in milliseconds: in two units at most, rounded down.
pub fn push_span(text: &mut String, milliseconds: u64) -> Result<(), AllocError> {
    let seconds = milliseconds / 1000;
    let (minutes, hours) = (seconds / 60, seconds / 3600);
    if minutes == 0 {
        write!(text, "{seconds} s")
    } else if hours == 0 {
        write!(text, "{minutes} min {} s", seconds % 60)
    } else if hours < 48 {
        write!(text, "{hours} h {} min", minutes % 60)
    } else {
        write!(text, "{} d {} h", hours / 24, hours % 24)
    }
}
