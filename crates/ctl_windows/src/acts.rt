//! What is done to a link at a moment, and when to look again.
ghost use Rattle.std.specs.Prelude.{◌≡◌, ◌<◌, IfSome, length, position};
ghost use Rattle.std.specs.List.{fold};
ghost use Rattle.ctl_windows.specs.Acts.{act_at, given_after, is_enough, is_open, look_again, opened, renewal, seconds_left, sooner, window_at};

use crate::window::{Rate, Window};

// The most seconds for which a server opens a link.
const MOST_SECONDS: u64 = 86_400;

// How many milliseconds before the end of an opening a longer window is opened anew.
const MARGIN: u64 = 43_200_000;

/// What was done to a link last.
#[derive(Clone, Copy)]
pub enum Given {
    /// Nothing since the server began, as far as is known.
    Nothing,
    /// It was held.
    Held,
    /// It was opened.
    Open(Opening),
}

/// An opening of a link.
#[derive(Clone, Copy)]
pub struct Opening {
    /// When its window begins.
    pub from: u64,
    /// When the server holds the link again.
    pub until: u64,
}

/// What is to be done to a link.
#[derive(Clone, Copy)]
pub enum Act {
    Nothing,
    Hold,
    /// The rate of its window is given, and then it is opened for so many seconds, 1 to 86,400.
    Open(Rate, u64),
}

/// The window of a list that is open at a moment; the first of several.
pub fn window_at(windows: &[Window], now: u64) -> Option<Window>
    ensures { result ≡ window_at now windows.now }
{
    match open_place(windows, now) {
        Some(place) => match windows.get(place) {
            Some(window) => Some(*window),
            None => None,
        },
        None => None,
    }
}

// The place of the first window that is open.
fn open_place(windows: &[Window], now: u64) -> Option<usize>
    ensures place { result ≡ position (is_open now) windows.now }
    ensures range { IfSome result (λ place. place < length windows.now) }
{
    windows.iter().position(|window| is_open(*window, now))
}

// Whether a window has begun and isn't over.
fn is_open(window: Window, now: u64) -> bool
    ensures { result ≡ is_open now window }
{
    window.from <= now && now < window.until
}

// For how many seconds a link is opened so that it is open until its window ends: a day at most, and a last second that has
// begun counts as a whole one.
fn seconds_left(window: Window, now: u64) -> u64
    ensures { result ≡ seconds_left window now }
{
    let left = window.until.saturating_sub(now);
    if left > MOST_SECONDS * 1000 {
        MOST_SECONDS
    } else {
        (left + 999) / 1000
    }
}

// Whether a link was opened for this window, and stays open until it ends or for a while.
fn is_enough(window: Window, given: Given, now: u64) -> bool
    ensures { result ≡ is_enough window given now }
{
    match given {
        Given::Open(opening) => {
            opening.from == window.from
                && (opening.until >= window.until || opening.until.saturating_sub(now) > MARGIN)
        }
        _ => false,
    }
}

/// What is to be done to a link at a moment, by the window that is open then and by what was done last.
pub fn act_at(current: Option<Window>, given: Given, now: u64) -> Act
    ensures { result ≡ act_at current given now }
{
    match current {
        Some(window) => {
            if is_enough(window, given, now) {
                Act::Nothing
            } else {
                Act::Open(window.rate, seconds_left(window, now))
            }
        }
        None => match given {
            Given::Nothing => Act::Hold,
            _ => Act::Nothing,
        },
    }
}

/// What was done to a link last once it was done what is to be done at a moment.
pub fn given_after(current: Option<Window>, given: Given, now: u64) -> Given
    ensures { result ≡ given_after current given now }
{
    match current {
        Some(window) => {
            if is_enough(window, given, now) {
                given
            } else {
                opened(window, now)
            }
        }
        None => match given {
            Given::Nothing => Given::Held,
            _ => given,
        },
    }
}

// A link that is opened for a window at a moment.
fn opened(window: Window, now: u64) -> Given
    ensures { result ≡ opened window now }
{
    Given::Open(Opening {
        from: window.from,
        until: now.saturating_add(seconds_left(window, now) * 1000),
    })
}

/// The next moment at which something may have to be done to a link; `None` if there is none.
pub fn look_again(windows: &[Window], given: Given, now: u64) -> Option<u64>
    ensures { result ≡ look_again windows.now given now }
{
    windows.iter().fold(renewal(given, now), |next, window| {
        sooner(sooner(next, window.from, now), window.until, now)
    })
}

// When a link has to be opened anew, if that is still to come.
fn renewal(given: Given, now: u64) -> Option<u64>
    ensures { result ≡ renewal given now }
{
    match given {
        Given::Open(opening) => sooner(None, opening.until.saturating_sub(MARGIN), now),
        _ => None,
    }
}

// The earlier of two moments, if the second is still to come.
fn sooner(next: Option<u64>, moment: u64, now: u64) -> Option<u64>
    ensures { result ≡ sooner next moment now }
{
    if moment <= now {
        return next;
    }
    match next {
        Some(next) => Some(next.min(moment)),
        None => Some(moment),
    }
}
