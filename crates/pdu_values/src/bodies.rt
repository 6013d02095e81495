//! The bodies of the kinds of PDU (CCSDS 727.0-B-5, 5.2 and 5.3).

use crate::requests::SegmentRequests;
use cfdp_types::{ChecksumType, Condition, Delivery, EntityId, FileStatus, Messages, Octets};

/// EOF: the end of the file or, where the condition is an error, of the transaction (5.2.2).
#[derive(Clone, Copy, Debug, PartialEq, Eq)]
pub struct Eof {
    pub condition: Condition,
    pub checksum: u32,
    /// Octets in the file.
    pub size: u64,
    /// The fault location: the entity that ended the transaction.
    pub location: Option<EntityId>,
}

/// Finished: how the transaction ended at the receiver (5.2.3).
#[derive(Clone, Copy, Debug, PartialEq, Eq)]
pub struct Finished {
    pub condition: Condition,
    pub delivery: Delivery,
    pub status: FileStatus,
    /// The fault location: the entity that ended the transaction.
    pub location: Option<EntityId>,
}

/// The kinds of PDU that are acknowledged.
#[derive(Clone, Copy, Debug, PartialEq, Eq)]
pub enum Acknowledged {
    Eof,
    Finished,
}

/// The transaction status in an ACK: what the acknowledging entity knows of the transaction.
#[derive(Clone, Copy, Debug, PartialEq, Eq)]
pub enum TransactionStatus {
    /// The transaction has ended or was never open: the entity keeps no history to tell which.
    Undefined,
    Active,
    Terminated,
    /// The transaction was never open at that entity.
    Unrecognized,
}

/// ACK: a PDU was received (5.2.4).
#[derive(Clone, Copy, Debug, PartialEq, Eq)]
pub struct Ack {
    /// The kind of the acknowledged PDU.
    pub of: Acknowledged,
    /// The condition code of the acknowledged PDU.
    pub condition: Condition,
    pub status: TransactionStatus,
}

/// Metadata: what the file is and where it goes (5.2.5).
#[derive(Clone, Debug, Drop, PartialEq, Eq)]
pub struct Metadata {
    /// Whether the sender requests transaction closure: a Finished PDU in class 1.
    pub closure: bool,
    pub checksum_type: ChecksumType,
    /// Octets in the file.
    pub size: u64,
    pub source_name: Octets,
    pub destination_name: Octets,
    pub messages: Messages,
}

/// NAK: what the receiver is missing (5.2.6).
#[derive(Clone, Debug, Drop, PartialEq, Eq)]
pub struct Nak {
    /// Start of scope, an offset in the file.
    pub start: u64,
    /// End of scope: the offset after its last octet.
    pub end: u64,
    pub requests: SegmentRequests,
}

/// Prompt: the PDU that the sender asks the receiver for (5.2.7).
#[derive(Clone, Copy, Debug, PartialEq, Eq)]
pub enum Prompt {
    Nak,
    KeepAlive,
}

/// Keep Alive: how much the receiver has (5.2.8).
#[derive(Clone, Copy, Debug, PartialEq, Eq)]
pub struct KeepAlive {
    /// One more than the greatest offset received; 0 if there is none.
    pub progress: u64,
}

/// File Data: a segment of the file (5.3).
#[derive(Clone, Debug, Drop, PartialEq, Eq)]
pub struct FileData {
    /// The offset in the file of the first octet.
    pub offset: u64,
    pub octets: Octets,
}
