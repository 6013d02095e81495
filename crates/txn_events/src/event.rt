ghost use Rattle.std.specs.Prelude.{◌≡◌, IfOk};

use cfdp_types::{Params, PutRequest, TimerKind, TxnKey};
use pdu_values::Pdu;
use std::alloc::AllocError;

/// What can happen to a transaction: an event for this entity's end of it.
#[derive(Clone, Debug, Drop)]
pub enum What {
    /// The user cancels the transaction.
    Cancel,
    /// The user suspends the transaction.
    Suspend,
    /// The user resumes the transaction.
    Resume,
    /// The user asks for a report.
    Report,
    /// The user abandons the transaction: it ends here, and the other entity is not informed.
    Abandon,
    /// The next PDU is due to be sent.
    Pump,
    /// A PDU of the transaction was received.
    Pdu(Pdu),
    /// The timer that was armed with this stamp expired.
    Timer(TimerKind, u32),
    /// The file store answered the deposit with this stamp; true if it keeps the file.
    Stored(u32, bool),
}

impl What {
    /// A copy of the event.
    pub fn copy(&self) -> Result<What, AllocError>
        ensures { IfOk result (λ copy. copy ≡ self.now) }
    {
        self.clone()
    }
}

/// An event for a lane.
#[derive(Debug, Drop)]
pub enum Event {
    /// The lane's user requests to send a file, with these parameters: this opens a sending transaction.
    Put(PutRequest, Params),
    /// Something happens to the transaction with this key. For a PDU it is the key in the PDU's header.
    On(TxnKey, What),
}

impl Event {
    /// A copy of the event.
    pub fn copy(&self) -> Result<Event, AllocError>
        ensures { IfOk result (λ copy. copy ≡ self.now) }
    {
        Ok(match self {
            Event::Put(request, params) => Event::Put(request.copy()?, *params),
            Event::On(key, what) => Event::On(*key, what.copy()?),
        })
    }
}
