use crate::key::TxnKey;
use crate::names::TimerKind;

/// An operation on one timer of a transaction, issued by a step.
#[derive(Clone, Copy, Debug, PartialEq, Eq)]
pub enum TimerOp {
    /// Start the timer, or restart it where it runs.
    Arm {
        key: TxnKey,
        kind: TimerKind,
        /// The number, in the lane's journal, of the event that arms the timer. An expiration quotes it.
        stamp: u32,
        /// Milliseconds until it expires.
        ms: u32,
    },
    /// Stop the timer.
    Disarm {
        key: TxnKey,
        kind: TimerKind,
        /// The number, in the lane's journal, of the event that disarms the timer.
        stamp: u32,
    },
}
