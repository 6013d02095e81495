use crate::slot::Run;
use cfdp_types::{TimerKind, TxnKey};

/// A running timer.
#[derive(Clone, Copy, Debug, PartialEq, Eq)]
pub struct Armed {
    /// The transaction that the timer belongs to.
    pub key: TxnKey,
    pub kind: TimerKind,
    /// The number, in the lane's journal, of the event that armed the timer.
    pub stamp: u32,
    /// When the timer expires, on the caller's clock in milliseconds.
    pub deadline: u64,
}

impl Armed {
    ghost use Rattle.std.specs.Prelude.{◌≡◌};
    ghost use Rattle.timer_list.specs.Slots.{run_of};

    pub(crate) fn run(&self) -> Run
        ensures { result ≡ run_of self.now }
    {
        Run {
            stamp: self.stamp,
            deadline: self.deadline,
        }
    }
}
