/// An entity ID.
#[derive(Clone, Copy, Debug, PartialEq, Eq, PartialOrd, Ord, Hash)]
pub struct EntityId(pub u64);

/// A transaction ID: the entity that sends the file, and the sequence number that it gave the transaction.
#[derive(Clone, Copy, Debug, PartialEq, Eq, PartialOrd, Ord, Hash)]
pub struct TxnKey {
    pub source: EntityId,
    pub seq: u64,
}

/// A received file that was handed to the file store and waits for the store's answer.
#[derive(Clone, Copy, Debug, PartialEq, Eq)]
pub struct Deposit {
    pub key: TxnKey,
    /// The number, in the lane's journal, of the event that handed the file over.
    pub stamp: u32,
}
