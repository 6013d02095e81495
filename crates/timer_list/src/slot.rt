use crate::armed::Armed;
use cfdp_types::{TimerKind, TxnKey};

/// A place in the list: a timer's, or one that is no longer used.
#[derive(Clone, Copy, PartialEq, Eq, Hash)]
pub(crate) enum Slot {
    Timer { key: TxnKey, kind: TimerKind },
    /// The number of this place.
    Vacant(usize),
}

/// The stamp and the deadline of a running timer.
#[derive(Clone, Copy)]
pub(crate) struct Run {
    pub stamp: u32,
    pub deadline: u64,
}

impl Slot {
    ghost use Rattle.std.specs.Prelude.{◌≡◌};
    ghost use Rattle.timer_list.specs.Slots.{timer_at};

    /// The timer that runs at this place, if one does.
    pub(crate) fn timer(&self, run: Option<Run>) -> Option<Armed>
        ensures { result ≡ timer_at self.now run }
    {
        match (self, run) {
            (Slot::Timer { key, kind }, Some(run)) => Some(Armed {
                key: *key,
                kind: *kind,
                stamp: run.stamp,
                deadline: run.deadline,
            }),
            _ => None,
        }
    }
}
