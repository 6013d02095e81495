//! What becomes of a timer that has expired.
ghost use Rattle.std.specs.Prelude.{◌≡◌};
ghost use Rattle.program_agenda.specs.Expiries.{deadline_on, due_by, expiry_of, expiry_on};

use crate::resting::deadline_behind;
use timer_list::Armed;

/// The link to the remote entity of a timer, as far as timers depend on it. All in milliseconds.
#[derive(Clone, Copy, Debug, PartialEq, Eq)]
pub struct TimedLink {
    /// The number of the remote entity in the configuration.
    pub remote: usize,
    pub is_held: bool,
    /// When the link was last released, or 0.
    pub released: u64,
    /// The interval of the remote entity's inactivity timer.
    pub silence: u64,
}

/// What becomes of a timer that has expired.
#[derive(Clone, Copy, Debug, PartialEq, Eq)]
pub enum Expiry {
    /// The entity is told.
    Fires,
    /// It rests for the link to this remote entity, which is held.
    Rests(usize),
    /// It runs again, up to this moment, because silence counts anew from a release.
    RunsUntil(u64),
}

/// What becomes of a timer that has expired at a moment, by the link of its transaction, if it has one.
pub fn expiry_of(timer: Armed, link: Option<TimedLink>, now: u64) -> Expiry
    ensures { result ≡ expiry_of timer link now }
{
    match link {
        None => Expiry::Fires,
        Some(link) => expiry_on(timer, link, now),
    }
}

// The same, by a link.
fn expiry_on(timer: Armed, link: TimedLink, now: u64) -> Expiry
    ensures { result ≡ expiry_on timer link now }
{
    if link.is_held {
        Expiry::Rests(link.remote)
    } else {
        due_by(deadline_on(timer, link), now)
    }
}

// When a timer expires on a link that is open.
fn deadline_on(timer: Armed, link: TimedLink) -> u64
    ensures { result ≡ deadline_on timer link }
{
    if link.released > 0 {
        deadline_behind(timer, link.released, link.silence)
    } else {
        timer.deadline
    }
}

// What becomes of a timer with this deadline: it runs again if the deadline is still to come.
fn due_by(deadline: u64, now: u64) -> Expiry
    ensures { result ≡ due_by deadline now }
{
    if deadline > now {
        Expiry::RunsUntil(deadline)
    } else {
        Expiry::Fires
    }
}
