use cfdp_types::{Class, EntityId, Octets, TxnKey};
use indications::{Phase, Side};

/// A view of the transaction that a lane runs or ran last, taken without an event.
#[derive(Debug, Drop)]
pub struct Glance {
    /// The transaction's key.
    pub key: TxnKey,
    /// The end of the transaction that this lane runs.
    pub end: Side,
    /// The entity at the other end.
    pub peer: EntityId,
    pub class: Class,
    /// The phase, as in a Report.
    pub phase: Phase,
    /// The progress, as in a Report: one more than the greatest offset sent or received.
    pub progress: u32,
    /// Whether the user was notified of its end. After it no event follows.
    pub has_ended: bool,
    /// The number of events that it has accepted.
    pub entries: u32,
    /// Its file, as far as this end knows it: from the Put, or from the first Metadata.
    pub file: Option<GlancedFile>,
}

/// What an end knows of the transaction's file.
#[derive(Debug, Drop)]
pub struct GlancedFile {
    /// The size in octets.
    pub size: u64,
    pub source_name: Octets,
    pub destination_name: Octets,
}
