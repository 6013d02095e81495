ghost use Rattle.std.specs.Prelude.{◌≡◌, [], ◌++◌, ◌∷◌, OnOk, OnErr, IfErr, IsErr, IsTrue, false};
ghost use Rattle.timer_list.specs.Slots.{none_before};
ghost use Rattle.timer_list.specs.Timers.{after, armed_with, arms_new, disarmed_of, first_due, has_timer, without_due};

use crate::armed::Armed;
use crate::slots::Slots;
use cfdp_types::{TimerKind, TimerOp, TxnKey};
use std::alloc::{AllocError, Global};
use std::marker::Model;

// How many places are reserved for each timer that may run.
const PLACES_A_TIMER: usize = 4;

/// The running timers, at most one of each kind for a transaction. Contracts see them as a list: a timer that is
/// armed again keeps its place, and one that did not run goes to the end.
#[derive(Drop)]
pub struct TimerList {
    slots: Slots,
    /// No timer expires before this time.
    soonest: u64,
}

impl Model for TimerList {
    ghost use Rattle.std.specs.Prelude.{List, IsTrue};
    ghost use Rattle.timer_list.specs.declared.armed.Armed.{Armed};
    ghost use Rattle.timer_list.specs.Slots.{none_before, timers_in};

    ghost Value = { List Armed };

    ghost view = { λ t. timers_in t.slots.entries.entries };

    ghost invariant = { λ t. IsTrue (none_before t.soonest (timers_in t.slots.entries.entries)) };
}

impl TimerList {
    /// An empty list.
    pub fn new(alloc: Global) -> TimerList
        ensures { result ≡ [] }
    {
        TimerList {
            slots: Slots::new(alloc),
            soonest: u64::MAX,
        }
    }

    /// Reserves memory for this many timers to run at once, so that none of them runs out of memory. It reserves four
    /// places for each, because places of removed timers are dropped only once they are more than the others.
    pub fn reserve(&mut self, timers: usize) -> Result<(), AllocError>
        ensures { self.new ≡ self.old }
    {
        self.slots.reserve(timers.saturating_mul(PLACES_A_TIMER))
    }

    /// Carries out a step's operation on the list; `now` is the time on the caller's clock in milliseconds. An
    /// operation of an earlier step than the one that armed the timer changes nothing. Averaged over many calls, the
    /// cost does not grow with the list.
    pub fn apply(&mut self, op: TimerOp, now: u64) -> Result<(), AllocError>
        ensures ok { OnOk result (self.new ≡ after op now self.old) }
        ensures err { OnErr result (self.new ≡ self.old) }
        ensures memory { IsErr result → IsTrue (arms_new op self.old) }
    {
        match op {
            TimerOp::Arm {
                key,
                kind,
                stamp,
                ms,
            } => self.arm(Armed {
                key,
                kind,
                stamp,
                deadline: now.saturating_add(u64::from(ms)),
            }),
            TimerOp::Disarm { key, kind, stamp } => {
                self.disarm(key, kind, stamp);
                Ok(())
            }
        }
    }

    fn arm(&mut self, timer: Armed) -> Result<(), AllocError>
        ensures ok { OnOk result (self.new ≡ armed_with timer self.old) }
        ensures err { OnErr result (self.new ≡ self.old) }
        ensures memory { OnErr result (has_timer timer.key timer.kind self.old ≡ false) }
    {
        self.soonest = self.soonest.min(timer.deadline);
        match self.slots.run_of(timer.key, timer.kind) {
            Some(old) if timer.stamp < old.stamp => Ok(()),
            Some(_) => {
                self.slots.run_anew(timer);
                Ok(())
            }
            None => self.slots.add(timer),
        }
    }

    fn disarm(&mut self, key: TxnKey, kind: TimerKind, stamp: u32)
        ensures { self.new ≡ disarmed_of key kind stamp self.old }
    {
        if let Some(run) = self.slots.run_of(key, kind) {
            if run.stamp <= stamp {
                self.slots.take_out(key, kind);
            }
        }
    }

    /// Removes the first timer in the list that has expired at `now`. The cost does not grow with the list where the
    /// least known deadline shows that none has expired. Otherwise the list is searched up to that timer or its end.
    pub fn due(&mut self, now: u64) -> Option<Armed>
        ensures timer { result ≡ first_due now self.old }
        ensures others { self.new ≡ without_due now self.old }
    {
        if now < self.soonest {
            return None;
        }
        let Some(timer) = self.slots.first_due(now) else {
            self.soonest = self.slots.soonest();
            return None;
        };
        self.slots.take_out(timer.key, timer.kind);
        Some(timer)
    }

    /// A time before which no timer expires, on the caller's clock. It is exact, or the greatest 64-bit number where no
    /// timer runs, if `due` has searched the whole list since timers were last removed or armed again, and no later
    /// attempt to arm one failed or came from an earlier step.
    pub fn soonest(&self) -> u64
        ensures { IsTrue (none_before result self.now) }
    {
        self.soonest
    }

    /// Appends a timer that was removed. Gives it back if a timer of its transaction and kind runs again, or if memory
    /// runs out. Averaged over many calls, the cost does not grow with the list.
    pub fn put_back(&mut self, timer: Armed) -> Result<(), Armed>
        ensures ok { OnOk result (self.new ≡ self.old ++ timer ∷ []) }
        ensures given_back { IfErr result (λ back. back ≡ timer) }
        ensures err { OnErr result (self.new ≡ self.old) }
        ensures there { IsTrue (has_timer timer.key timer.kind self.old) → IsErr result }
    {
        if self.slots.run_of(timer.key, timer.kind).is_some() {
            return Err(timer);
        }
        self.soonest = self.soonest.min(timer.deadline);
        self.slots.add(timer).map_err(|_| timer)
    }
}
