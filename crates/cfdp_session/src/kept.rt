ghost use Rattle.std.specs.Prelude.{◌≡◌};
ghost use Rattle.cfdp_session.specs.Running.{again};

use cfdp_types::TimerOp;
use std::alloc::{AllocError, Global};
use timer_list::{Armed, TimerList};

/// The running timers, and what the last event left to do with them. That is done before the next event, or when the
/// caller asks. So an event that an entity took can't fail for want of memory for a timer.
#[derive(Drop)]
pub struct KeptTimers {
    pub list: TimerList,
    /// A timer that goes back to the list, at its end.
    pub held: Option<Armed>,
    /// The time that the caller told last, in milliseconds; none if it keeps timers itself.
    pub clock: Option<u64>,
    /// How many of the last event's operations are done.
    pub carried: usize,
}

impl KeptTimers {
    ghost use Rattle.std.specs.Prelude.{◌≡◌, length, Some, None, IfOk, IfSome, OnOk, OnErr, IsErr, IsTrue};
    ghost use Rattle.timer_list.specs.Slots.{none_before};
    ghost use Rattle.timer_list.specs.Timers.{first_due, without_due};
    ghost use Rattle.cfdp_session.specs.Running.{IsIdle, begun, ended_in, is_before, running, settled, waiting, with_back};

    /// No timers, for a caller that keeps them itself until it tells the time.
    pub fn new(alloc: Global) -> KeptTimers
        ensures { result ≡ begun }
    {
        KeptTimers {
            list: TimerList::new(alloc),
            held: None,
            clock: None,
            carried: 0,
        }
    }

    // Puts a timer that is held back into the list.
    fn restore(&mut self) -> Result<(), AllocError>
        ensures ok { OnOk result (self.new ≡ record self.old { list = waiting self.old; held = None }) }
        ensures err { OnErr result (self.new ≡ self.old) }
        ensures idle { self.old.held ≡ None → IsErr result → ⊥ }
    {
        if let Some(timer) = self.held {
            self.list.apply(again(timer), timer.deadline)?;
            self.held = None;
        }
        Ok(())
    }

    // Does the operations that are left.
    #[tactic(auto, using(crate::proofs::Carrying::carry_one, crate::proofs::Carrying::carried_all))]
    fn carry(&mut self, ops: &[TimerOp], now: u64) -> Result<(), AllocError>
        requires { self.old.held ≡ None }
        ensures ok { OnOk result (self.new.list ≡ ended_in ops.now now self.old) }
        ensures err { OnErr result (ended_in ops.now now self.new ≡ ended_in ops.now now self.old) }
        ensures others { self.new ≡ record self.old { list = self.new.list; carried = self.new.carried } }
    {
        for place in self.carried..ops.len() {
            self.list.apply(ops[place], now)?;
            self.carried = place + 1;
        }
        Ok(())
    }

    /// Does what the last event left to do with timers, which are these operations. An error means that memory ran
    /// out: what is left is done by a later call.
    pub fn settle(&mut self, ops: &[TimerOp]) -> Result<(), AllocError>
        ensures ok { OnOk result (self.new ≡ settled ops.now self.old) }
        ensures err { OnErr result (running ops.now self.new ≡ running ops.now self.old) }
        ensures clock { self.new.clock ≡ self.old.clock }
        ensures idle { IsIdle self.old → IsErr result → ⊥ }
    {
        self.restore()?;
        if let Some(now) = self.clock {
            self.carry(ops, now)?;
        }
        self.carried = ops.len();
        Ok(())
    }

    /// Does what the last event left to do, and removes the first timer that has expired at this time.
    pub fn due(&mut self, ops: &[TimerOp], now: u64) -> Result<Option<Armed>, AllocError>
        ensures timer { IfOk result (λ timer. timer ≡ first_due now (running ops.now self.old)) }
        ensures left { OnOk result (self.new ≡ record (settled ops.now self.old) {
          list = without_due now (running ops.now self.old);
          clock = Some now;
        }) }
        ensures err { OnErr result (running ops.now self.new ≡ running ops.now self.old) }
        ensures clock { OnErr result (self.new.clock ≡ self.old.clock) }
        ensures idle { IsIdle self.old → IsErr result → ⊥ }
    {
        self.settle(ops)?;
        self.clock = Some(now);
        Ok(self.list.due(now))
    }

    /// Has a timer that was removed go back, after all others.
    pub fn hold(&mut self, timer: Armed)
        requires { self.old.held ≡ None }
        ensures back { waiting self.new ≡ with_back timer self.old.list }
        ensures others { self.new ≡ record self.old { list = self.new.list; held = self.new.held } }
    {
        self.held = Some(timer);
        let _is_back = self.restore();
    }

    /// Does what the last event left to do, and returns a time before which no timer expires; none if none runs.
    pub fn soonest(&mut self, ops: &[TimerOp]) -> Result<Option<u64>, AllocError>
        ensures none_before { IfOk result (λ moment. IsTrue (is_before moment (running ops.now self.old))) }
        ensures ok { OnOk result (self.new ≡ settled ops.now self.old) }
        ensures err { OnErr result (running ops.now self.new ≡ running ops.now self.old) }
        ensures clock { self.new.clock ≡ self.old.clock }
        ensures idle { IsIdle self.old → IsErr result → ⊥ }
    {
        self.settle(ops)?;
        let moment = self.list.soonest();
        if moment == u64::MAX {
            Ok(None)
        } else {
            Ok(Some(moment))
        }
    }
}

// The operation that arms a timer once more, with the stamp that it had.
fn again(timer: Armed) -> TimerOp
    ensures { result ≡ again timer }
{
    TimerOp::Arm {
        key: timer.key,
        kind: timer.kind,
        stamp: timer.stamp,
        ms: 0,
    }
}
