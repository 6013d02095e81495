ghost use Rattle.std.specs.Prelude.{◌≡◌, [], IfOk, OnOk, OnErr, IfErr};
ghost use Rattle.program_agenda.specs.Stores.{added, left_waiting, next_store, next_waiting, put_off, soonest_store, soonest_waiting, without_store};

use std::alloc::{AllocError, Global};
use std::collections::VecDeque;
use std::marker::Model;

/// After how many milliseconds a file that couldn't be stored is tried again.
const REST_MS: u64 = 1_000;

/// A file that is tried again from a moment on.
#[derive(Drop)]
pub struct Retry<D: Drop> {
    pub file: D,
    pub again: u64,
}

/// Received files to be stored: those that weren't tried yet, and those that are tried again, each from its own moment on.
/// Both are in their order: while moments don't go back, the first of the latter is the one that is tried next.
#[derive(Drop)]
pub struct StoreQueue<D: Drop> {
    fresh: VecDeque<D>,
    waiting: VecDeque<Retry<D>>,
}

impl<D: Drop> Model for StoreQueue<D> {
    ghost use Rattle.program_agenda.specs.Stores.{StoreQueueValue};

    ghost Value = { StoreQueueValue D };

    ghost view = { λ q. record { fresh = q.fresh.items; waiting = q.waiting.items } };
}

impl<D: Drop> StoreQueue<D> {
    /// No file is to be stored. Memory is reserved for so many that weren't tried yet, and for so many that are tried
    /// again.
    pub fn new(alloc: Global, room: usize) -> Result<StoreQueue<D>, AllocError>
        ensures { IfOk result (λ queue. queue ≡ record { fresh = []; waiting = [] }) }
    {
        Ok(StoreQueue {
            fresh: VecDeque::with_capacity(alloc, room)?,
            waiting: VecDeque::with_capacity(alloc, room)?,
        })
    }

    /// Those that are tried again, in their order.
    pub fn tried(&self) -> &VecDeque<Retry<D>>
        ensures { result.now.items ≡ self.now.waiting }
    {
        &self.waiting
    }

    /// Takes out the file to be stored next at a moment, if there is one.
    pub fn next(&mut self, now: u64) -> Option<D>
        ensures file { result ≡ next_store now self.old }
        ensures left { self.new ≡ without_store now self.old }
    {
        if let Some(first) = self.fresh.pop_front() {
            return Some(first);
        }
        take_due(&mut self.waiting, now)
    }

    /// Adds a file after all that weren't tried yet. It is returned if memory runs out.
    pub fn add(&mut self, file: D) -> Result<(), D>
        ensures ok { OnOk result (self.new ≡ added file self.old) }
        ensures given_back { IfErr result (λ back. back ≡ file) }
        ensures err { OnErr result (self.new ≡ self.old) }
    {
        match self.fresh.push_back(file) {
            Ok(()) => Ok(()),
            Err(back) => Err(back.value),
        }
    }

    /// Notes that a file couldn't be stored at a moment: it is tried again a second later. The others keep their moments. It
    /// is returned if memory runs out.
    pub fn put_off(&mut self, file: D, now: u64) -> Result<(), D>
        ensures ok { OnOk result (self.new ≡ put_off file now self.old) }
        ensures given_back { IfErr result (λ back. back ≡ file) }
        ensures err { OnErr result (self.new ≡ self.old) }
    {
        let again = now.saturating_add(REST_MS);
        match self.waiting.push_back(Retry { file, again }) {
            Ok(()) => Ok(()),
            Err(back) => Err(back.value.file),
        }
    }

    /// From when on a file is next: 0 for at once, or the greatest moment of 64 bits if none is to be stored.
    pub fn soonest(&self) -> u64
        ensures { result ≡ soonest_store self.now }
    {
        if self.fresh.is_empty() {
            first_moment(&self.waiting)
        } else {
            0
        }
    }
}

// From when on the first of those that are tried again is next.
fn first_moment<D: Drop>(waiting: &VecDeque<Retry<D>>) -> u64
    ensures { result ≡ soonest_waiting waiting.now.items }
{
    match waiting.front() {
        Some(first) => first.again,
        None => u64::MAX,
    }
}

// Takes out the first of those that are tried again, from its moment on.
fn take_due<D: Drop>(waiting: &mut VecDeque<Retry<D>>, now: u64) -> Option<D>
    ensures file { result ≡ next_waiting now waiting.old.items }
    ensures left { waiting.new.items ≡ left_waiting now waiting.old.items }
{
    if first_moment(waiting) > now {
        return None;
    }
    match waiting.pop_front() {
        Some(first) => Some(first.file),
        None => None,
    }
}
