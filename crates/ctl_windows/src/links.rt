//! The links of a plan.
ghost use Rattle.std.specs.Prelude.{◌≡◌, IfOk, OnOk};
ghost use Rattle.std.specs.List.{filter, list_all};
ghost use Rattle.ctl_windows.specs.Acts.{is_left_of, is_past};

use crate::acts::{Given, look_again};
use crate::window::Window;
use std::alloc::{AllocError, Global};

/// The link to an entity: its windows, and what was done to it last.
#[derive(Drop)]
pub struct Link {
    pub remote: u64,
    pub windows: Vec<Window>,
    pub given: Given,
}

/// The links of the windows of a plan that aren't over at a moment. Windows of an entity stay in their order.
pub fn links_of(alloc: Global, windows: &[Window], now: u64) -> Result<Vec<Link>, AllocError> {
    let mut links: Vec<Link> = Vec::new(alloc);
    for window in windows {
        if is_past(*window, now) || links.iter().any(|link| link.remote == window.remote) {
            continue;
        }
        let link = Link {
            remote: window.remote,
            windows: windows_of(alloc, windows, window.remote, now)?,
            given: Given::Nothing,
        };
        if links.push(link).is_err() {
            return Err(AllocError);
        }
    }
    Ok(links)
}

// The windows of an entity that aren't over at a moment.
fn windows_of(
    alloc: Global,
    windows: &[Window],
    remote: u64,
    now: u64,
) -> Result<Vec<Window>, AllocError>
    ensures { IfOk result (λ left. left.items ≡ filter (is_left_of remote now) windows.now) }
{
    windows
        .iter()
        .copied()
        .filter(|window| is_left_of(*window, remote, now))
        .collect(alloc)
}

fn is_left_of(window: Window, remote: u64, now: u64) -> bool
    ensures { result ≡ is_left_of remote now window }
{
    window.remote == remote && !is_past(window, now)
}

// Whether a window is over.
fn is_past(window: Window, now: u64) -> bool
    ensures { result ≡ is_past now window }
{
    window.until <= now
}

/// Whether all windows of a list are over at a moment.
pub fn is_over(windows: &[Window], now: u64) -> bool
    ensures { result ≡ list_all (is_past now) windows.now }
{
    windows.iter().all(|window| is_past(*window, now))
}

/// The next moment at which something may have to be done to one of the links; `None` if there is none.
pub fn next_look(links: &[Link], now: u64) -> Option<u64> {
    let mut next: Option<u64> = None;
    for link in links {
        if let Some(moment) = look_again(link.windows.as_slice(), link.given, now) {
            next = match next {
                Some(before) => Some(before.min(moment)),
                None => Some(moment),
            };
        }
    }
    next
}
