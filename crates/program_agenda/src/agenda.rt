ghost use Rattle.std.specs.Prelude.{◌≡◌, ◌++◌, ◌∷◌, [], IsTrue, OnOk, OnErr, IfErr};
ghost use Rattle.timer_list.specs.Timers.{after, first_due, without_due};
ghost use Rattle.timer_list.specs.Slots.{none_before};
ghost use Rattle.program_agenda.specs.Links.{next_resting, superseded, without_next};
ghost use Rattle.program_agenda.specs.Turns.{next_key, turned, rested, forgotten, begun, woken, least_rest};

use crate::resting::RestingTimers;
use crate::rotation::Rotation;
use cfdp_types::{TimerOp, TxnKey};
use std::alloc::{AllocError, Global};
use std::marker::Model;
use timer_list::{Armed, TimerList};

/// The work that a program has to do without an event from outside: timers that expire, and files being sent; also
/// the timers that rest because the link to their remote entity is held. Contracts see the three lists.
#[derive(Drop)]
pub struct Agenda {
    timers: TimerList,
    resting: RestingTimers,
    sendings: Rotation,
}

impl Model for Agenda {
    ghost use Rattle.program_agenda.specs.Turns.{AgendaValue};

    ghost Value = { AgendaValue };

    ghost view = { λ a. record { timers = a.timers; resting = a.resting; sendings = a.sendings } };
}

impl Agenda {
    /// An empty agenda.
    pub fn new(alloc: Global) -> Agenda
        ensures { result ≡ record { timers = []; resting = []; sendings = [] } }
    {
        Agenda {
            timers: TimerList::new(alloc),
            resting: RestingTimers::new(alloc),
            sendings: Rotation::new(alloc),
        }
    }

    /// Reserves memory for so many timers to run or rest at once, so that none of them lacks memory.
    pub fn reserve_timers(&mut self, timers: usize) -> Result<(), AllocError>
        ensures { self.new ≡ self.old }
    {
        self.timers.reserve(timers)?;
        self.resting.reserve(timers)
    }

    /// Takes out the first timer that has expired at this moment.
    pub fn due(&mut self, now: u64) -> Option<Armed>
        ensures timer { result ≡ first_due now self.old.timers }
        ensures left { self.new ≡ record self.old { timers = without_due now self.old.timers } }
    {
        self.timers.due(now)
    }

    /// The transaction of the first file that doesn't rest; that file's next turn is after all others.
    pub fn next_sending(&mut self, now: u64) -> Option<TxnKey>
        ensures key { result ≡ next_key now self.old.sendings }
        ensures left { self.new ≡ record self.old { sendings = turned now self.old.sendings } }
    {
        self.sendings.next(now)
    }

    /// Arms or disarms a timer, as an operation of a step at this moment says. A resting timer that it arms anew or
    /// disarms is dropped.
    pub fn apply(&mut self, operation: TimerOp, at: u64) -> Result<(), AllocError>
        ensures ok { OnOk result (self.new ≡ record self.old {
          timers = after operation at self.old.timers;
          resting = superseded operation self.old.resting;
        }) }
        ensures err { OnErr result (self.new ≡ self.old) }
    {
        self.timers.apply(operation, at)?;
        self.resting.supersede(operation);
        Ok(())
    }

    /// Lets a timer that was taken out rest until its link is released, after all others. If memory runs out, the timer
    /// is returned.
    pub fn lay_by(&mut self, remote: usize, timer: Armed) -> Result<(), Armed>
        ensures ok { OnOk result (self.new ≡ record self.old {
          resting = self.old.resting ++ record { remote = remote; timer = timer } ∷ [];
        }) }
        ensures given_back { IfErr result (λ back. back ≡ timer) }
        ensures err { OnErr result (self.new ≡ self.old) }
    {
        self.resting.add(remote, timer)
    }

    /// Takes out the first resting timer of a remote entity.
    pub fn next_resting(&mut self, remote: usize) -> Option<Armed>
        ensures timer { result ≡ next_resting remote self.old.resting }
        ensures left { self.new ≡ record self.old { resting = without_next remote self.old.resting } }
    {
        self.resting.next(remote)
    }

    /// Wakes all files that rest.
    pub fn wake_all(&mut self)
        ensures { self.new ≡ record self.old { sendings = woken self.old.sendings } }
    {
        self.sendings.wake_all();
    }

    /// Puts a timer that was taken out after all others that run. It is returned if it runs already, or if memory runs
    /// out.
    pub fn put_back(&mut self, timer: Armed) -> Result<(), Armed>
        ensures ok { OnOk result (self.new ≡ record self.old { timers = self.old.timers ++ timer ∷ [] }) }
        ensures given_back { IfErr result (λ back. back ≡ timer) }
        ensures err { OnErr result (self.new ≡ self.old) }
    {
        self.timers.put_back(timer)
    }

    /// Reserves memory for one more file.
    pub fn reserve(&mut self) -> Result<(), AllocError>
        ensures { self.new ≡ self.old }
    {
        self.sendings.reserve()
    }

    /// Adds a transaction whose file is to be sent, after all others.
    pub fn begin(&mut self, key: TxnKey) -> Result<(), AllocError>
        ensures ok { OnOk result (self.new ≡ record self.old { sendings = begun key self.old.sendings }) }
        ensures err { OnErr result (self.new ≡ self.old) }
    {
        self.sendings.begin(key)
    }

    /// Lets the file of a transaction rest until a moment.
    pub fn rest(&mut self, key: TxnKey, until: u64)
        ensures { self.new ≡ record self.old { sendings = rested key until self.old.sendings } }
    {
        self.sendings.rest(key, until);
    }

    /// Removes the file of a transaction: it is no longer being sent.
    pub fn forget(&mut self, key: TxnKey)
        ensures { self.new ≡ record self.old { sendings = forgotten key self.old.sendings } }
    {
        self.sendings.forget(key);
    }

    /// A moment before which no timer expires.
    pub fn soonest_timer(&self) -> u64
        ensures { IsTrue (none_before result self.now.timers) }
    {
        self.timers.soonest()
    }

    /// The first moment at which a file doesn't rest, or the greatest of 64 bits if no file is being sent.
    pub fn soonest_sending(&self) -> u64
        ensures { result ≡ least_rest self.now.sendings }
    {
        self.sendings.soonest()
    }
}
