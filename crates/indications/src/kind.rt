use cfdp_types::Delivery;

/// The kind of an indication: what it changes in the user's view of the transaction, as far as later indications
/// depend on it.
#[derive(Clone, Copy, Debug, PartialEq, Eq)]
pub enum IndicationKind {
    /// The sender has started the transaction.
    Opening,
    /// A sender has sent its EOF.
    EofSent,
    /// The receiver has received the EOF.
    EofRecv,
    /// The receiver has received the Metadata.
    Metadata,
    /// The receiver has received new octets of the file.
    Segment { offset: u32, length: u32 },
    Suspension,
    Resumption,
    /// The transaction has ended; the delivery code says whether the file is claimed to be complete.
    End(Delivery),
    /// Nothing changes.
    Notice,
}
