use crate::lists::{Pdus, TimerOps};
use cfdp_types::Deposit;
use indications::Indications;

/// The answer to one accepted event, at either end.
#[derive(Drop)]
pub struct Answer {
    /// The indications to the user, in order.
    pub inds: Indications,
    /// The PDUs for the other entity, in order.
    pub pdus: Pdus,
    /// The operations on the transaction's timers, in order.
    pub timers: TimerOps,
    /// A received file that is handed to the file store; never at a sender.
    pub deposit: Option<Deposit>,
}
