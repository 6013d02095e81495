//! Timers that expired while the link to their remote entity was held.
ghost use Rattle.std.specs.Prelude.{◌≡◌, ◌<◌, ◌++◌, ◌∷◌, [], length, IfErr, IfSome, OnOk, OnErr};
ghost use Rattle.program_agenda.specs.Links.{deadline_behind, link_place, next_resting, resting_place, superseded, without_next};

use cfdp_types::{TimerKind, TimerOp, TxnKey};
use std::alloc::{AllocError, Global};
use std::marker::Model;
use timer_list::Armed;

/// A timer that expired while its link was held.
#[derive(Clone, Copy, Debug, PartialEq, Eq)]
pub struct Resting {
    /// The number in the configuration of the remote entity at the link's other end.
    pub remote: usize,
    pub timer: Armed,
}

/// The timers that rest until their link is released. Contracts see the list of them, in the order in which they
/// expired.
#[derive(Drop)]
pub struct RestingTimers {
    timers: Vec<Resting>,
}

impl Model for RestingTimers {
    ghost use Rattle.std.specs.Prelude.{List};
    ghost use Rattle.program_agenda.specs.declared.resting.Resting.{Resting};

    ghost Value = { List Resting };

    ghost view = { λ r. r.timers.items };
}

impl RestingTimers {
    /// An empty list.
    pub fn new(alloc: Global) -> RestingTimers
        ensures { result ≡ [] }
    {
        RestingTimers {
            timers: Vec::new(alloc),
        }
    }

    /// Reserves memory for so many more timers.
    pub fn reserve(&mut self, timers: usize) -> Result<(), AllocError>
        ensures { self.new ≡ self.old }
    {
        self.timers.reserve(timers)
    }

    /// Appends a timer that expired. It is returned if memory runs out.
    pub fn add(&mut self, remote: usize, timer: Armed) -> Result<(), Armed>
        ensures ok { OnOk result (self.new ≡ self.old ++ record { remote = remote; timer = timer } ∷ []) }
        ensures given_back { IfErr result (λ back. back ≡ timer) }
        ensures err { OnErr result (self.new ≡ self.old) }
    {
        match self.timers.push(Resting { remote, timer }) {
            Ok(()) => Ok(()),
            Err(_) => Err(timer),
        }
    }

    /// Drops the resting timer that an operation of a step arms anew or disarms, if there is one.
    pub fn supersede(&mut self, operation: TimerOp)
        ensures { self.new ≡ superseded operation self.old }
    {
        let (TimerOp::Arm { key, kind, .. } | TimerOp::Disarm { key, kind, .. }) = operation;
        if let Some(place) = resting_place(&self.timers, key, kind) {
            self.timers.remove(place);
        }
    }

    /// Takes out the first resting timer of a remote entity.
    pub fn next(&mut self, remote: usize) -> Option<Armed>
        ensures timer { result ≡ next_resting remote self.old }
        ensures left { self.new ≡ without_next remote self.old }
    {
        let place = link_place(&self.timers, remote)?;
        Some(self.timers.remove(place).timer)
    }
}

// The place of the resting timer of a transaction and kind.
fn resting_place(timers: &[Resting], key: TxnKey, kind: TimerKind) -> Option<usize>
    ensures place { result ≡ resting_place key kind timers.now }
    ensures range { IfSome result (λ place. place < length timers.now) }
{
    timers.iter().position(|resting| key == resting.timer.key && kind == resting.timer.kind)
}

// The place of the first resting timer of a link.
fn link_place(timers: &[Resting], remote: usize) -> Option<usize>
    ensures place { result ≡ link_place remote timers.now }
    ensures range { IfSome result (λ place. place < length timers.now) }
{
    timers.iter().position(|resting| resting.remote == remote)
}

/// The deadline of a timer after its link was released. For the inactivity timer, the silence counts anew from the
/// release; every other timer keeps its deadline. All in milliseconds.
pub fn deadline_behind(timer: Armed, released: u64, silence: u64) -> u64
    ensures { result ≡ deadline_behind timer released silence }
{
    match timer.kind {
        TimerKind::Inactivity => timer.deadline.max(released.saturating_add(silence)),
        _ => timer.deadline,
    }
}
