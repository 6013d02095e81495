//! Links open for a time.
ghost use Rattle.std.specs.Prelude.{◌≡◌, ◌≤◌, ◌<◌, [], IfSome, OnErr, OnOk, length, position, vec_capacity, vec_len};
ghost use Rattle.std.specs.List.{filter, fold};
ghost use Rattle.program_outbox.specs.Outboxes.{at_place, without_place};
ghost use Rattle.program_outbox.specs.Windows.{earlier, end_of, has_end, is_of, is_of_other, opened, remote_at, until_at};

use cfdp_types::EntityId;
use std::alloc::{AllocError, Global};
use std::marker::Model;

/// A link open until a moment, in milliseconds of the caller's clock.
#[derive(Clone, Copy, Debug, PartialEq, Eq)]
pub struct Window {
    pub remote: EntityId,
    pub until: u64,
}

/// The links open for a time; they are held when it is over. Contracts see the list of them.
#[derive(Drop)]
pub struct Windows {
    windows: Vec<Window>,
}

impl Model for Windows {
    ghost use Rattle.std.specs.Prelude.{List};
    ghost use Rattle.program_outbox.specs.declared.windows.Window.{Window};

    ghost Value = { List Window };

    ghost view = { λ w. w.windows.items };
}

impl Windows {
    /// No link is open for a time.
    pub fn new(alloc: Global) -> Windows
        ensures { result ≡ [] }
    {
        Windows {
            windows: Vec::new(alloc),
        }
    }

    /// Notes that the link to a remote entity is open from now on for so many seconds, whatever was said of it before.
    pub fn open_for(&mut self, remote: EntityId, now: u64, seconds: u64) -> Result<(), AllocError>
        ensures ok { OnOk result (self.new ≡ opened remote (end_of now seconds) self.old) }
        ensures err { OnErr result (self.new ≡ self.old) }
    {
        self.windows.try_reserve(1)?;
        keep_others(&mut self.windows, remote.0);
        self.windows.push_reserved(Window {
            remote,
            until: now.saturating_add(seconds.saturating_mul(1_000)),
        });
        Ok(())
    }

    /// Forgets the window of a remote entity: its link is held, or open until it is held.
    pub fn forget(&mut self, remote: EntityId)
        ensures { self.new ≡ filter (is_of_other remote.0) self.old }
    {
        keep_others(&mut self.windows, remote.0);
    }

    /// Until when the link to a remote entity is open, if it is open only for a time.
    pub fn until(&self, remote: EntityId) -> Option<u64>
        ensures { result ≡ until_at (position (is_of remote.0) self.now) self.now }
    {
        let place = remote_place(&self.windows, remote.0)?;
        match self.windows.get(place) {
            Some(window) => Some(window.until),
            None => None,
        }
    }

    /// A moment, or the end of a window if one comes before it.
    pub fn next_moment(&self, until: u64) -> u64
        ensures { result ≡ fold earlier until self.now }
    {
        self.windows
            .iter()
            .fold(until, |moment, window| moment.min(window.until))
    }

    /// Takes out a window that is over at a moment, and returns the remote entity whose link is to be held.
    pub fn take_over(&mut self, now: u64) -> Option<EntityId>
        ensures remote { result ≡ remote_at (position (has_end now) self.old) self.old }
        ensures rest { self.new ≡ without_place (position (has_end now) self.old) self.old }
    {
        let place = over_place(&self.windows, now)?;
        let window = self.windows.remove(place);
        Some(window.remote)
    }
}

// Keeps the windows of other remote entities.
fn keep_others(windows: &mut Vec<Window>, remote: u64)
    ensures others { windows.new.items ≡ filter (is_of_other remote) windows.old.items }
    ensures bound { vec_len windows.new ≤ vec_len windows.old }
    ensures capacity { vec_capacity windows.new ≡ vec_capacity windows.old }
{
    windows.retain(
        |window: &Window| -> bool
            ensures { result ≡ is_of_other remote window.now }
        { window.remote.0 != remote },
    );
}

// The place of a remote entity's window.
fn remote_place(windows: &[Window], remote: u64) -> Option<usize>
    ensures place { result ≡ position (is_of remote) windows.now }
    ensures range { IfSome result (λ place. place < length windows.now) }
{
    windows.iter().position(|window| window.remote.0 == remote)
}

// The place of the first window that is over.
fn over_place(windows: &[Window], now: u64) -> Option<usize>
    ensures place { result ≡ position (has_end now) windows.now }
    ensures range { IfSome result (λ place. place < length windows.now) }
{
    windows.iter().position(|window| window.until <= now)
}
