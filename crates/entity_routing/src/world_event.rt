use cfdp_types::{Octets, PutRequest, TimerKind, TxnKey};

/// A user's request.
#[derive(Debug, Drop)]
pub enum Request {
    /// Send a file from the user's sending lane with this number.
    Put(usize, PutRequest),
    Cancel(TxnKey),
    Suspend(TxnKey),
    Resume(TxnKey),
    Report(TxnKey),
    Abandon(TxnKey),
}

/// An event of the entity.
#[derive(Debug, Drop)]
pub enum WorldEvent {
    /// The user with this number makes a request.
    Request(usize, Request),
    /// A datagram was received.
    Deliver(Octets),
    /// The next PDU of a transaction is due to be sent.
    Pump(TxnKey),
    /// A transaction's timer that was armed with this stamp expired.
    Timer(TxnKey, TimerKind, u32),
    /// The file store answered a transaction's deposit with this stamp; true if it keeps the file.
    Stored(TxnKey, u32, bool),
}
