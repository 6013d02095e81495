/// The service class of a transaction.
#[derive(Clone, Copy, Debug, PartialEq, Eq)]
pub enum Class {
    /// Unacknowledged.
    One,
    /// Acknowledged.
    Two,
}

/// A fault handler: what the entity does when a fault is declared.
#[derive(Clone, Copy, Debug, PartialEq, Eq)]
pub enum Handler {
    Cancel,
    Suspend,
    Ignore,
    Abandon,
}

/// The role of an entity in a transaction: which end it is, and, for a receiver, the class.
#[derive(Clone, Copy, Debug, PartialEq, Eq)]
pub enum Role {
    Send,
    RecvOne,
    RecvTwo,
}

/// The checksum that files are sent with.
#[derive(Clone, Copy, Debug, PartialEq, Eq)]
pub enum Checksum {
    /// The modular checksum: the sum of the file's four-octet words.
    Modular,
    /// No checksum: the checksum in every EOF is 0.
    Null,
}

/// The timers of a transaction.
#[derive(Clone, Copy, Debug, PartialEq, Eq, Hash)]
pub enum TimerKind {
    Ack,
    Nak,
    Check,
    Inactivity,
}

/// The delivery code of a Finished PDU: whether the receiver has the whole file.
#[derive(Clone, Copy, Debug, PartialEq, Eq)]
pub enum Delivery {
    Complete,
    Incomplete,
}

/// The file status of a Finished PDU: what the receiver did with the file.
#[derive(Clone, Copy, Debug, PartialEq, Eq)]
pub enum FileStatus {
    /// Discarded deliberately.
    Discarded,
    /// Discarded because the file store rejected it.
    Rejected,
    /// Retained in the file store.
    Retained,
    /// Not reported by the receiver.
    Unreported,
}
