//! The events that a reception refuses, and why.
ghost use Rattle.std.specs.Prelude.{◌≡◌};
ghost use Rattle.receiver_table.specs.Refusals.{waits_for_store};

use crate::receiver::ReceiverCore;
use cfdp_types::Class;
use cfdp_types::limits::{JOURNAL_ENTRIES, JOURNAL_ENTRIES_KEPT};
use pdu_values::{Acknowledged, Body};
use txn_events::{Refusal, What, is_of_other_class, is_stale_timer, is_too_large, needs_room};

impl ReceiverCore {
    ghost use Rattle.std.specs.Prelude.{◌≡◌, ◌&&◌};
    ghost use Rattle.receiver_core.specs.Core.{shown, reception_of};
    ghost use Rattle.receiver_table.specs.Refusals.{is_stale_store, is_pdu_misplaced, is_misplaced, is_full, refusal_at};
    ghost use Rattle.txn_events.specs.Events.{needs_room};

    // Whether the file store answers a deposit other than the waiting one, or none is waiting.
    fn is_stale_store(&self, event: &What) -> bool
        ensures { result ≡ is_stale_store (shown self.now) event.now }
    {
        match event {
            What::Stored(stamp, _) => !self.control.waits_for(*stamp),
            _ => false,
        }
    }

    fn is_pdu_misplaced(&self, body: &Body) -> bool
        ensures { result ≡ is_pdu_misplaced (reception_of self.now) (shown self.now) body.now }
    {
        let closing = self.control.is_closing();
        let two = self.header.class == Class::Two;
        match body {
            Body::Eof(_) => false,
            Body::Metadata(_) | Body::FileData(_) => closing,
            Body::Prompt(_) => !two || closing,
            Body::Ack(ack) => ack.of == Acknowledged::Eof || !two || !closing,
            Body::Finished(_) | Body::Nak(_) | Body::KeepAlive(_) => true,
        }
    }

    fn is_misplaced(&self, event: &What) -> bool
        ensures { result ≡ is_misplaced (reception_of self.now) (shown self.now) event.now }
    {
        match event {
            What::Pdu(pdu) => self.is_pdu_misplaced(pdu.body()),
            What::Pump => true,
            What::Resume => !self.control.is_suspended(),
            What::Suspend => {
                self.header.class != Class::Two
                    || self.control.is_suspended()
                    || self.control.is_closing()
            }
            What::Cancel => self.control.is_closing(),
            What::Report | What::Abandon | What::Timer(_, _) | What::Stored(_, _) => false,
        }
    }

    fn is_full(&self) -> bool
        ensures { result ≡ is_full (shown self.now) }
    {
        self.control.entries >= JOURNAL_ENTRIES - JOURNAL_ENTRIES_KEPT
    }

    // Whether the journal has no room for the event.
    fn has_no_room(&self, event: &What) -> bool
        ensures { result ≡ (is_full (shown self.now) && needs_room event.now) }
    {
        self.is_full() && needs_room(event)
    }

    /// Why an event is refused in the present state; None where it is accepted.
    pub(crate) fn refusal_of(&self, event: &What) -> Option<Refusal>
        ensures { result ≡ refusal_at (reception_of self.now) (shown self.now) event.now }
    {
        if is_of_other_class(self.header.class, event) {
            Some(Refusal::ModeMismatch)
        } else if is_stale_timer(&self.control.armed, event) {
            Some(Refusal::StaleTimer)
        } else if self.is_stale_store(event) {
            Some(Refusal::StaleStored)
        } else if self.control.is_storing() && waits_for_store(event) {
            Some(Refusal::Storing)
        } else if self.is_misplaced(event) {
            Some(Refusal::WrongState)
        } else if is_too_large(event) {
            Some(Refusal::TooLarge)
        } else if self.has_no_room(event) {
            Some(Refusal::JournalFull)
        } else {
            None
        }
    }
}

// Whether an event is refused until the file store answers: all are but its answer and Report.
fn waits_for_store(event: &What) -> bool
    ensures { result ≡ waits_for_store event.now }
{
    !matches!(event, What::Stored(_, _) | What::Report)
}
