use crate::indication::Indications;
use cfdp_types::TxnKey;

/// The indications of one step, put into a user's queue together: at least one.
#[derive(Debug, Drop)]
pub struct Bundle {
    /// The user's number.
    pub user: usize,
    /// The number, among the user's lanes, of the lane that runs the transaction.
    pub lane: usize,
    pub key: TxnKey,
    pub inds: Indications,
}
