//! One line of a plan.
ghost use Rattle.std.specs.Prelude.{◌≡◌, map};
ghost use Rattle.std.specs.Str.{bytes_eq};
ghost use Rattle.ctl_windows.specs.Numbers.{number_of};
ghost use Rattle.ctl_windows.specs.Windows.{rate_of, window_from, window_of};

use crate::moments::moment_in;
use crate::numbers::{number_in, number_within};

// The most octets a second that a server takes as a rate.
const MOST_RATE: u64 = 1_000_000_000;

/// A time in which the link to an entity is open. Moments are milliseconds since the beginning of 1970, in UTC.
#[derive(Clone, Copy)]
pub struct Window {
    /// The number of its line in the plan, from 1.
    pub line: u64,
    pub remote: u64,
    pub from: u64,
    pub until: u64,
    pub rate: Rate,
}

/// What a window does to the rate at which files leave.
#[derive(Clone, Copy)]
pub enum Rate {
    /// Nothing.
    Same,
    /// The entity has no limit of its own any more.
    Off,
    /// At most so many octets leave in a second.
    Octets(u64),
}

/// Why a line of a plan isn't a window, or can't be one.
#[derive(Clone, Copy)]
pub enum Why {
    /// It has fewer than three words.
    Short,
    /// It has more than four words.
    Long,
    /// A word is not a moment.
    Moment,
    /// A window doesn't end after it begins.
    Order,
    /// A word is not the number of an entity.
    Remote,
    /// A word is not a rate.
    Rate,
    /// A window begins before another one of its entity has ended, which has the line with this number.
    Overlap(u64),
    /// The server doesn't have the entity.
    Unknown,
}

/// Which word of a line is wrong, from 0, and why.
#[derive(Clone, Copy)]
pub struct Blame {
    pub place: usize,
    pub why: Why,
}

/// The window that the words of a line give: from, until, the entity, and a rate if there is one.
pub fn read_window(line: u64, words: &[&str]) -> Result<Window, Blame>
    ensures { result ≡ window_of line (map (λ word. word.now) words.now) }
{
    match words {
        [from, until, remote] => {
            window_from(
                line,
                moment_in(from),
                moment_in(until),
                remote_in(remote),
                Some(Rate::Same),
            )
        }
        [from, until, remote, rate] => {
            window_from(
                line,
                moment_in(from),
                moment_in(until),
                remote_in(remote),
                rate_in(rate),
            )
        }
        [_, _, _, _, _, ..] => Err(wrong(4, Why::Long)),
        _ => Err(wrong(0, Why::Short)),
    }
}

// The window of a line, by what its words are.
fn window_from(
    line: u64,
    from: Option<u64>,
    until: Option<u64>,
    remote: Option<u64>,
    rate: Option<Rate>,
) -> Result<Window, Blame>
    ensures { result ≡ window_from line from until remote rate }
{
    let Some(from) = from else {
        return Err(wrong(0, Why::Moment));
    };
    let Some(until) = until else {
        return Err(wrong(1, Why::Moment));
    };
    let Some(remote) = remote else {
        return Err(wrong(2, Why::Remote));
    };
    let Some(rate) = rate else {
        return Err(wrong(3, Why::Rate));
    };
    if from >= until {
        return Err(wrong(1, Why::Order));
    }
    Ok(Window {
        line,
        remote,
        from,
        until,
        rate,
    })
}

fn wrong(place: usize, why: Why) -> Blame
    ensures { result ≡ record { place = place; why = why } }
{
    Blame { place, why }
}

fn remote_in(word: &str) -> Option<u64>
    ensures { result ≡ number_of word.now }
{
    number_in(word.as_bytes())
}

fn rate_in(word: &str) -> Option<Rate>
    ensures { result ≡ rate_of word.now }
{
    if word == "off" {
        return Some(Rate::Off);
    }
    match number_within(word.as_bytes(), 1, MOST_RATE) {
        Some(octets) => Some(Rate::Octets(octets)),
        None => None,
    }
}
