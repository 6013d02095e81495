use cfdp_types::TxnKey;

/// A file being sent.
#[derive(Clone, Copy, Debug, PartialEq, Eq)]
pub struct Sending {
    /// The transaction that sends it.
    pub key: TxnKey,
    /// The moment before which none of its segments is sent, in the caller's milliseconds.
    pub rests_until: u64,
}
