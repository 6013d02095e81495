ghost use Rattle.std.specs.Prelude.{◌≡◌};
ghost use Rattle.program_desk.specs.Steps.{soonest_of, soonest_with};

use cfdp_types::{Deposit, TimerOp, TxnKey};
use lane_table::Done;
use txn_events::TimerOps;

/// How soon the main thread has to handle a step.
#[derive(Clone, Copy, Debug, PartialEq, Eq)]
pub enum Urgency {
    /// At once.
    Now,
    /// Within a millisecond.
    Soon,
    /// When the first of its timers expires.
    WithItsTimers,
}

/// The rest of a lane's step, once its PDUs are sent.
#[derive(Debug, Drop)]
pub struct Step {
    /// The transaction of the step.
    pub key: TxnKey,
    /// The operations on the transaction's timers, in order.
    pub timers: TimerOps,
    /// A received file to be stored.
    pub deposit: Option<Deposit>,
    /// The moment of the step, in milliseconds; the timers that it arms run from then on.
    pub at: u64,
}

impl Step {
    /// The rest of a step made at this moment.
    pub fn of(done: Done, at: u64) -> Step
        ensures { result ≡ record { key = done.key; timers = done.timers; deposit = done.deposit; at = at } }
    {
        let Done {
            key,
            timers,
            deposit,
            ..
        } = done;
        Step {
            key,
            timers,
            deposit,
            at,
        }
    }

    /// The first moment at which a timer that the step arms expires, or the greatest of 64 bits if it arms none.
    pub fn soonest(&self) -> u64
        ensures { result ≡ soonest_of self.now.at self.now.timers }
    {
        soonest_in(self.at, self.timers.as_slice())
    }
}

// The first moment at which a timer expires that these operations, at a moment, arm.
fn soonest_in(at: u64, operations: &[TimerOp]) -> u64
    ensures { result ≡ soonest_of at operations.now }
{
    match operations {
        [] => u64::MAX,
        [first, rest @ ..] => soonest_with(at, first, soonest_in(at, rest)),
    }
}

// The moment at which an operation's timer expires, or another moment if that is sooner.
fn soonest_with(at: u64, operation: &TimerOp, other: u64) -> u64
    ensures { result ≡ soonest_with at operation.now other }
{
    match operation {
        TimerOp::Arm { ms, .. } => other.min(at.saturating_add(u64::from(*ms))),
        TimerOp::Disarm { .. } => other,
    }
}
