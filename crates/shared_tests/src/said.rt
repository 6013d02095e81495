//! The outcome of an event, as a value that can be copied.

use cfdp_types::{Deposit, TimerKind, TimerOp};
use lane_table::{Done, Refused};
use shared_entity::EntityRefusal;
use std::alloc::AllocError;

/// Adds a line with a word and numbers.
pub(crate) fn push_line(text: &mut String, word: &str, numbers: &[u64]) -> Result<(), AllocError> {
    text.push_str(word)?;
    for number in numbers {
        write!(text, " {number}")?;
    }
    text.push_str("\n")
}

/// The outcome of an event.
#[derive(Clone, Copy)]
pub(crate) enum Said {
    /// The transaction with this number took a step.
    Done {
        seq: u64,
        deposit: Option<Deposit>,
        /// The interval of its inactivity timer, if the step armed that, or zero.
        ms: u32,
    },
    /// The number of a refusal.
    Refused(u8),
}

impl Said {
    pub(crate) fn is_done(self) -> bool {
        matches!(self, Said::Done { .. })
    }

    /// The deposit that follows, if there is one.
    pub(crate) fn deposit(self) -> Option<Deposit> {
        match self {
            Said::Done { deposit, .. } => deposit,
            Said::Refused(_) => None,
        }
    }

    /// Adds a line: for a step the number of the transaction, the stamp of the deposit or zero, and the interval.
    pub(crate) fn push(self, text: &mut String) -> Result<(), AllocError> {
        match self {
            Said::Done { seq, deposit, ms } => {
                let stamp = match deposit {
                    Some(deposit) => u64::from(deposit.stamp),
                    None => 0,
                };
                push_line(text, "step", &[seq, stamp, u64::from(ms)])
            }
            Said::Refused(number) => push_refusal(text, number),
        }
    }
}

/// Adds a line for a refusal.
pub(crate) fn push_refusal(text: &mut String, number: u8) -> Result<(), AllocError> {
    push_line(text, "refused", &[u64::from(number)])
}

/// The outcome of a lane's step.
pub(crate) fn of_step(step: Result<Done, Refused>) -> Said {
    match &step {
        Ok(done) => Said::Done {
            seq: done.key.seq,
            deposit: done.deposit,
            ms: interval_in(done.timers.as_slice()),
        },
        Err(refused) => Said::Refused(refused.why.number()),
    }
}

/// The outcome of a call of an entity.
pub(crate) fn told(answer: Result<Said, EntityRefusal>) -> Said {
    match &answer {
        Ok(said) => *said,
        Err(refusal) => Said::Refused(refusal.number()),
    }
}

fn interval_in(timers: &[TimerOp]) -> u32 {
    for timer in timers {
        if let TimerOp::Arm {
            kind: TimerKind::Inactivity,
            ms,
            ..
        } = timer
        {
            return *ms;
        }
    }
    0
}
