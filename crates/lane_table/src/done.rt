use cfdp_types::{Deposit, TxnKey};
use txn_events::{Pdus, TimerOps};

/// The result of a step, apart from the indications, which go to the user's queue.
#[derive(Debug, Drop)]
pub struct Done {
    /// The transaction of the step.
    pub key: TxnKey,
    /// The PDUs for the other entity, in order.
    pub pdus: Pdus,
    /// The operations on the transaction's timers, in order.
    pub timers: TimerOps,
    /// A received file that is handed to the file store.
    pub deposit: Option<Deposit>,
}
