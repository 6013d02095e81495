//! The state of a sender, read without an event.
use crate::sender::SenderCore;
use cfdp_types::{PutRequest, TxnKey};
use indications::Phase;

impl SenderCore {
    ghost use Rattle.std.specs.Prelude.{◌≡◌};
    ghost use Rattle.sender_table.specs.Answers.{phase_of};
    ghost use Rattle.sender_core.specs.Core.{shown, sending_of};

    /// The transaction's key.
    pub fn key(&self) -> TxnKey
        ensures { result ≡ (sending_of self.now).key }
    {
        self.key
    }

    /// The request that opened the transaction.
    pub fn request(&self) -> &PutRequest
        ensures { result.now ≡ (sending_of self.now).request }
    {
        &self.request
    }

    /// The phase that a report gives.
    pub fn phase(&self) -> Phase
        ensures { result ≡ phase_of (shown self.now) }
    {
        self.control.phase()
    }

    /// One more than the greatest offset sent, 0 if there is none.
    pub fn progress(&self) -> u32
        ensures { result ≡ (shown self.now).progress }
    {
        self.control.progress
    }

    /// The number of events that the sender has accepted.
    pub fn entries(&self) -> u32
        ensures { result ≡ (shown self.now).entries }
    {
        self.control.entries
    }
}
