//! Tests of an event that both ends use.
ghost use Rattle.std.specs.Prelude.{◌≡◌, not};
ghost use Rattle.cfdp_types.specs.Steps.{is_stamp};
ghost use Rattle.txn_events.specs.Events as asked;
ghost use Rattle.txn_events.specs.Timers.{stamp_of};

use crate::event::What;
use crate::timers::Stamps;
use cfdp_types::limits::FILE_OCTETS;
use cfdp_types::{Class, Condition, TimerKind};
use pdu_values::Body;

/// Whether the event is a PDU whose transmission mode is not the transaction's class.
pub fn is_of_other_class(class: Class, event: &What) -> bool
    ensures { result ≡ asked.is_of_other_class class event.now }
{
    match event {
        What::Pdu(pdu) => pdu.header().class != class,
        _ => false,
    }
}

/// Whether the event is refused when the journal is full. The file store's answer and Abandon are not: places are
/// reserved for them.
pub fn needs_room(event: &What) -> bool
    ensures { result ≡ asked.needs_room event.now }
{
    !matches!(event, What::Stored(_, _) | What::Abandon)
}

/// Whether the event is the reception of a PDU.
pub fn is_pdu(event: &What) -> bool
    ensures { result ≡ asked.is_pdu event.now }
{
    matches!(event, What::Pdu(_))
}

/// Whether the event is the expiration of a timer of this kind.
pub fn is_expiration(kind: TimerKind, event: &What) -> bool
    ensures { result ≡ asked.is_expiration kind event.now }
{
    match event {
        What::Timer(expired, _) => *expired == kind,
        _ => false,
    }
}

// Whether no timer of this kind runs with this stamp.
fn is_stale(armed: &Stamps, kind: TimerKind, stamp: u32) -> bool
    ensures { result ≡ not (is_stamp (stamp_of armed.now kind) stamp) }
{
    match armed.of(kind) {
        None => true,
        Some(kept) => kept != stamp,
    }
}

/// Whether the event is the expiration of a timer that does not run, or that was armed again since.
pub fn is_stale_timer(armed: &Stamps, event: &What) -> bool
    ensures { result ≡ asked.is_stale_timer (stamp_of armed.now) event.now }
{
    match event {
        What::Timer(kind, stamp) => is_stale(armed, *kind, *stamp),
        _ => false,
    }
}

/// Whether a PDU with this body opens a reception that does not exist yet: Metadata, File Data and EOF do.
pub fn body_opens(body: &Body) -> bool
    ensures { result ≡ asked.body_opens body.now }
{
    matches!(body, Body::Metadata(_) | Body::FileData(_) | Body::Eof(_))
}

/// Whether the file size, or the end of the file data, is beyond the largest file that the entity supports.
pub fn is_body_too_large(body: &Body) -> bool
    ensures { result ≡ asked.is_body_too_large body.now }
{
    match body {
        Body::Metadata(metadata) => metadata.get().size > u64::from(FILE_OCTETS),
        Body::FileData(part) => {
            let limit = u64::from(FILE_OCTETS);
            part.offset > limit || part.offset + part.octets.as_slice().len() as u64 > limit
        }
        Body::Eof(eof) => {
            eof.condition == Condition::NO_ERROR && eof.size > u64::from(FILE_OCTETS)
        }
        _ => false,
    }
}

/// Whether the event is a PDU with a file size, or an end of file data, beyond the largest file.
pub fn is_too_large(event: &What) -> bool
    ensures { result ≡ asked.is_too_large event.now }
{
    match event {
        What::Pdu(pdu) => is_body_too_large(pdu.body()),
        _ => false,
    }
}
