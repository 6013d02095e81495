//! The state after an event.
ghost use Rattle.std.specs.Prelude.{◌≡◌, [], MatchOption, ◌≤◌, ◌||◌};
ghost use Rattle.std.specs.Option.{option_to_list};
ghost use Rattle.std.specs.List.{list_any};
ghost use Rattle.cfdp_types.specs.declared.limits.TheConstants.{FILE_OCTETS};
ghost use Rattle.cfdp_types.specs.declared.names.TimerKind.{TimerKind};
ghost use Rattle.cfdp_types.specs.Steps.{is_kind};
ghost use Rattle.sender_table.specs.Sending as sending_of_file;
ghost use Rattle.sender_table.specs.Sending.{is_suspended, happens, begins_phase, eof_among, extent_of, acknowledges_eof, requests_of, asks_for_metadata, tries_after};
ghost use Rattle.sender_table.specs.Answers.{effect_of};
ghost use Rattle.sender_core.specs.ControlBlock.{state_from, nowhere};
ghost use Rattle.sender_core.specs.Core.{IsNext, entry_without_timers, arming};
ghost use Rattle.txn_events.specs.Timers.{AreFew, effects, effect_of_change, tries_of};

use crate::control::ControlBlock;
use crate::response::Response;
use cfdp_types::{Condition, TimerKind};
use pdu_values::{Acknowledged, Body, Eof, Pdu, SegmentRequest};
use txn_events::{CountResets, TimerChange, TimerChanges, Tries, What, is_pdu, paused_after};

// The EOF, if the PDU that is sent is one.
fn eof_in(pdu: &Option<Pdu>) -> Option<Eof>
    ensures { result ≡ eof_among (option_to_list pdu.now) }
{
    match pdu {
        None => None,
        Some(pdu) => match pdu.body() {
            Body::Eof(eof) => Some(*eof),
            _ => None,
        },
    }
}

// Whether the PDU that is sent is Metadata.
fn is_metadata(pdu: &Option<Pdu>) -> bool
    ensures { result ≡ list_any sending_of_file.is_metadata (option_to_list pdu.now) }
{
    match pdu {
        None => false,
        Some(pdu) => matches!(pdu.body(), Body::Metadata(_)),
    }
}

// One more than the greatest offset that is sent, 0 if there is none.
fn extent_of(pdu: &Option<Pdu>) -> u32
    requires { extent_of (option_to_list pdu.now) ≤ FILE_OCTETS }
    ensures { result ≡ extent_of (option_to_list pdu.now) }
{
    match pdu {
        None => 0,
        Some(pdu) => match pdu.body() {
            Body::FileData(data) => {
                let count = data.octets.as_slice().len();
                if count == 0 {
                    0
                } else {
                    (data.offset + count as u64) as u32
                }
            }
            _ => 0,
        },
    }
}

// Whether an EOF is sent whose condition code differs from the last one's.
fn begins_phase(before: Option<Eof>, new: Option<Eof>) -> bool
    ensures { result ≡ begins_phase before new }
{
    match new {
        None => false,
        Some(new) => match before {
            None => true,
            Some(old) => old.condition != new.condition,
        },
    }
}

/// The segment requests of a NAK.
pub(crate) fn requests_of(event: &What) -> Option<&[SegmentRequest]>
    ensures { MatchOption result (requests_of (happens event.now) ≡ [])
        (λ requests. requests.now ≡ requests_of (happens event.now)) }
{
    match event {
        What::Pdu(pdu) => match pdu.body() {
            Body::Nak(nak) => Some(nak.requests.as_slice()),
            _ => None,
        },
        _ => None,
    }
}

// Whether the Metadata is requested.
fn asks_for_metadata(event: &What) -> bool
    ensures { result ≡ list_any asks_for_metadata (requests_of (happens event.now)) }
{
    match requests_of(event) {
        None => false,
        Some(requests) => requests
            .iter()
            .any(|request| request.start == 0 && request.end == 0),
    }
}

// Whether the event acknowledges the EOF without an error.
fn acknowledges(event: &What) -> bool
    ensures { result ≡ acknowledges_eof (happens event.now) }
{
    match event {
        What::Pdu(pdu) => match pdu.body() {
            Body::Ack(ack) => ack.of == Acknowledged::Eof && ack.condition == Condition::NO_ERROR,
            _ => false,
        },
        _ => false,
    }
}

// The counts of expirations after an event and its response.
fn tries_after(control: &ControlBlock, event: &What, response: &Response) -> Tries
    requires { AreFew control.now.entries control.now.tries }
    ensures { (kind : TimerKind) → tries_of result kind ≡ tries_after (state_from control.now nowhere)
        (entry_without_timers event.now response.now) kind }
{
    let resets = CountResets {
        ack: begins_phase(control.eof, eof_in(&response.pdu)),
        nak: false,
    };
    control.tries.after(event, response.inds.as_slice(), resets)
}

/// The control block after an event and its response; the timers stay as they were.
pub(crate) fn next(control: &ControlBlock, event: &What, response: &Response) -> ControlBlock
    requires few { AreFew control.now.entries control.now.tries }
    requires inside { extent_of (option_to_list response.now.pdu) ≤ FILE_OCTETS }
    ensures next { IsNext control.now event.now response.now result }
{
    ControlBlock {
        entries: control.entries + 1,
        metadata_remains: (control.metadata_remains && !is_metadata(&response.pdu))
            || asks_for_metadata(event),
        progress: control.progress.max(extent_of(&response.pdu)),
        eof: match eof_in(&response.pdu) {
            None => control.eof,
            Some(eof) => Some(eof),
        },
        acknowledged: control.acknowledged || acknowledges(event),
        paused: paused_after(control.paused, response.inds.as_slice()),
        ended: control.ended || response.inds.has_end(),
        armed: control.armed,
        tries: tries_after(control, event, response),
    }
}

// Whether all timers are stopped: the transaction has ended or is suspended.
fn is_over(next: &ControlBlock) -> bool
    ensures { result ≡ (next.now.ended || is_suspended (state_from next.now nowhere)) }
{
    next.ended || next.is_suspended()
}

// Whether the timer of a kind is the one to arm.
fn is_armed(arms: Option<TimerKind>, kind: TimerKind) -> bool
    ensures { result ≡ list_any (is_kind kind) (option_to_list arms) }
{
    match arms {
        None => false,
        Some(armed) => armed == kind,
    }
}

// What a step does to the timer of a kind, where `next` is the control block after it.
fn change_of(
    next: &ControlBlock,
    event: &What,
    arms: Option<TimerKind>,
    kind: TimerKind,
) -> TimerChange
    ensures { effect_of_change result ≡ effect_of (arming arms) (state_from next.now nowhere) (happens event.now) kind }
{
    let is_ack = kind == TimerKind::Ack;
    if is_over(next) || (next.is_closing() && !is_ack) {
        TimerChange::Stops
    } else if is_armed(arms, kind) {
        TimerChange::Arms
    } else if is_ack && acknowledges(event) {
        TimerChange::Stops
    } else if kind == TimerKind::Inactivity && is_pdu(event) && next.acknowledged {
        TimerChange::Arms
    } else {
        TimerChange::Keeps
    }
}

/// What a step does to each timer, where `next` is the control block after it.
pub(crate) fn changes(next: &ControlBlock, event: &What, arms: Option<TimerKind>) -> TimerChanges
    ensures { (kind : TimerKind) → effects result kind ≡ effect_of (arming arms) (state_from next.now nowhere)
        (happens event.now) kind }
{
    TimerChanges {
        ack: change_of(next, event, arms, TimerKind::Ack),
        nak: change_of(next, event, arms, TimerKind::Nak),
        check: change_of(next, event, arms, TimerKind::Check),
        inactivity: change_of(next, event, arms, TimerKind::Inactivity),
    }
}
