//! The state of a reception, read without an event.
use crate::receiver::ReceiverCore;
use cfdp_types::{Class, TxnKey};
use indications::Phase;
use pdu_values::Metadata;

impl ReceiverCore {
    ghost use Rattle.std.specs.Prelude.{◌≡◌};
    ghost use Rattle.std.specs.Option.{option_copied};
    ghost use Rattle.receiver_table.specs.Answers.{phase_of};
    ghost use Rattle.receiver_core.specs.Core.{shown, reception_of};

    /// The transaction's key.
    pub fn key(&self) -> TxnKey
        ensures { result ≡ (reception_of self.now).key }
    {
        self.key
    }

    /// The transaction's class.
    pub fn class(&self) -> Class
        ensures { result ≡ (reception_of self.now).header.class }
    {
        self.header.class
    }

    /// The phase that a report gives.
    pub fn phase(&self) -> Phase
        ensures { result ≡ phase_of (shown self.now) }
    {
        self.control.phase()
    }

    /// One more than the greatest offset received, 0 if there is none.
    pub fn progress(&self) -> u32
        ensures { result ≡ (shown self.now).progress }
    {
        self.control.progress
    }

    /// The number of events that the reception has accepted.
    pub fn entries(&self) -> u32
        ensures { result ≡ (shown self.now).entries }
    {
        self.control.entries
    }

    /// The first Metadata, once it was received.
    pub fn metadata(&self) -> Option<&Metadata>
        ensures { option_copied result ≡ (shown self.now).metadata }
    {
        self.metadata.as_ref()
    }
}
