//! The events that a sender refuses, and why.
ghost use Rattle.std.specs.Prelude.{◌≡◌};
ghost use Rattle.sender_table.specs.Refusals.{is_last_eof};

use crate::sender::SenderCore;
use cfdp_types::limits::{JOURNAL_ENTRIES, JOURNAL_ENTRIES_KEPT};
use cfdp_types::{Class, Condition};
use pdu_values::{Body, Eof, Pdu};
use txn_events::{Refusal, What, is_of_other_class, is_stale_timer, needs_room};

impl SenderCore {
    ghost use Rattle.std.specs.Prelude.{◌≡◌, nat_lt, length};
    ghost use Rattle.sender_core.specs.Core.{shown, sending_of};
    ghost use Rattle.sender_table.specs.Refusals.{runs_to_send, has_more_to_send, has_no_place, has_kind_of, is_pdu_misplaced, is_misplaced, is_full, refusal_of};

    // Whether octets of the file remain to be sent.
    fn has_octets(&self) -> bool
        ensures { result ≡ nat_lt 0 (length (runs_to_send (sending_of self.now) (shown self.now))) }
    {
        self.first_run().is_some()
    }

    // Whether Metadata, octets of the file, or the EOF remain to be sent.
    fn has_more_to_send(&self) -> bool
        ensures { result ≡ has_more_to_send (sending_of self.now) (shown self.now) }
    {
        self.control.metadata_remains || self.has_octets() || self.control.eof.is_none()
    }

    // Whether it is an ACK of an EOF that is not the last one sent, or NAK or Keep Alive in the closing phase.
    fn has_no_place(&self, body: &Body) -> bool
        ensures { result ≡ has_no_place (shown self.now) body.now }
    {
        match body {
            Body::Ack(ack) => !is_last_eof(self.control.eof, ack.condition),
            Body::Nak(_) | Body::KeepAlive(_) => self.control.is_closing(),
            _ => false,
        }
    }

    // Whether the class has PDUs of this kind.
    fn has_kind_of(&self, body: &Body) -> bool
        ensures { result ≡ has_kind_of (sending_of self.now) body.now }
    {
        self.request.class() == Class::Two
            || (self.request.closure() && matches!(body, Body::Finished(_)))
    }

    fn is_pdu_misplaced(&self, pdu: &Pdu) -> bool
        ensures { result ≡ is_pdu_misplaced (sending_of self.now) (shown self.now) pdu.now.body }
    {
        !self.has_kind_of(pdu.body()) || !pdu.is_toward_sender() || self.has_no_place(pdu.body())
    }

    fn is_misplaced(&self, event: &What) -> bool
        ensures { result ≡ is_misplaced (sending_of self.now) (shown self.now) event.now }
    {
        match event {
            What::Pdu(pdu) => self.is_pdu_misplaced(pdu),
            What::Pump => {
                self.control.is_suspended() || self.control.is_closing() || !self.has_more_to_send()
            }
            What::Resume => !self.control.is_suspended(),
            What::Suspend => self.control.is_suspended() || self.control.is_closing(),
            What::Cancel => self.control.is_closing(),
            What::Report | What::Abandon | What::Timer(_, _) | What::Stored(_, _) => false,
        }
    }

    fn is_full(&self) -> bool
        ensures { result ≡ is_full (shown self.now) }
    {
        self.control.entries >= JOURNAL_ENTRIES - JOURNAL_ENTRIES_KEPT
    }

    /// Why an event is refused in the present state; None where it is accepted.
    pub(crate) fn refusal_of(&self, event: &What) -> Option<Refusal>
        ensures { result ≡ refusal_of (sending_of self.now) (shown self.now) event.now }
    {
        if is_of_other_class(self.request.class(), event) {
            Some(Refusal::ModeMismatch)
        } else if is_stale_timer(&self.control.armed, event) {
            Some(Refusal::StaleTimer)
        } else if matches!(event, What::Stored(_, _)) {
            Some(Refusal::StaleStored)
        } else if self.is_misplaced(event) {
            Some(Refusal::WrongState)
        } else if self.is_full() && needs_room(event) {
            Some(Refusal::JournalFull)
        } else {
            None
        }
    }
}

// Whether the last EOF that was sent has this condition code.
fn is_last_eof(last: Option<Eof>, condition: Condition) -> bool
    ensures { result ≡ is_last_eof last condition }
{
    match last {
        None => false,
        Some(eof) => eof.condition == condition,
    }
}
