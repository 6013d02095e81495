//! Windows of one entity that overlap.
ghost use Rattle.std.specs.Prelude.{◌≡◌, ◌++◌, IfOk, OnOk};
ghost use Rattle.std.specs.Option.{option_to_list};
ghost use Rattle.ctl_windows.specs.Clashes.{clash_of, clashes_of, has_clash, later};

use crate::window::Window;
use std::alloc::{AllocError, Global};

/// A window that begins before an earlier one of its entity has ended.
#[derive(Clone, Copy)]
pub struct Clash {
    pub window: Window,
    /// The line of the earlier one.
    pub line: u64,
}

/// The windows that begin before an earlier one of their entity has ended. The list is in the order of entities, and for
/// each entity in that of beginnings.
pub fn clashes(alloc: Global, windows: &[Window]) -> Result<Vec<Clash>, AllocError>
    ensures { IfOk result (λ found. found.items ≡ clashes_of None windows.now) }
{
    let mut found = Vec::new(alloc);
    let mut last = None;
    for window in windows {
        push_some(&mut found, clash_of(last, *window))?;
        last = later(last, *window);
    }
    Ok(found)
}

// Adds a clash, if there is one.
fn push_some(found: &mut Vec<Clash>, clash: Option<Clash>) -> Result<(), AllocError>
    ensures { OnOk result (found.new.items ≡ found.old.items ++ option_to_list clash) }
{
    if let Some(clash) = clash {
        found.push(clash)?;
    }
    Ok(())
}

// The clash of a window with the one before that ends last, if there is one.
fn clash_of(last: Option<Window>, window: Window) -> Option<Clash>
    ensures { result ≡ clash_of last window }
{
    let last = last?;
    if !has_clash(last, window) {
        return None;
    }
    Some(Clash {
        window,
        line: last.line,
    })
}

fn has_clash(last: Window, window: Window) -> bool
    ensures { result ≡ has_clash last window }
{
    last.remote == window.remote && window.from < last.until
}

// Of the windows of one entity so far the one that ends last.
fn later(last: Option<Window>, window: Window) -> Option<Window>
    ensures { result ≡ later last window }
{
    match last {
        Some(last) if last.remote == window.remote && last.until > window.until => Some(last),
        _ => Some(window),
    }
}
