//! The state after an event.
ghost use Rattle.std.specs.Prelude.{◌≡◌, ◌||◌, ◌&&◌, not, false, if◌then◌else◌};
ghost use Rattle.cfdp_types.specs.declared.names.TimerKind.{TimerKind};
ghost use Rattle.cfdp_types.specs.declared.limits.TheConstants.{JOURNAL_ENTRIES};
ghost use Rattle.cfdp_types.specs.Steps.{has_kind, is_kind};
ghost use Rattle.cfdp_types.specs.Steps as steps;
ghost use Rattle.cfdp_types.specs.declared.names.TimerKind.TheVariants as kinds;
ghost use Rattle.txn_events.specs.Events.{body_of_event};
ghost use Rattle.txn_events.specs.Timers.{AreFew, AreUpTo, effects, effect_of_change, is_reset, tries_by, tries_of};
ghost use Rattle.receiver_table.specs.Reception.{closure_of, eof_of, extent_of, file_data_of, waiting_after};
ghost use Rattle.receiver_table.specs.Refusals.{is_too_large};
ghost use Rattle.receiver_table.specs.Answers.{effect_of, is_sign_of_life};
ghost use Rattle.receiver_parts.specs.ControlBlock.{bare};
ghost use Rattle.receiver_parts.specs.Response.{arms_of, response_value};
ghost use Rattle.receiver_parts.specs.Steps.{IsWithEvent, IsNext, is_quiet};

use crate::control::ControlBlock;
use crate::response::Response;
use cfdp_types::{Condition, Deposit, TimerKind};
use indications::Indication;
use pdu_values::{Body, Eof, Prompt};
use txn_events::{CountResets, TimerChange, TimerChanges, Tries, What, has_resumed, paused_after};

// The closure bit of the Metadata that an event carries.
fn closure_in(event: &What) -> Option<bool>
    ensures { result ≡ closure_of (body_of_event event.now) }
{
    match event {
        What::Pdu(pdu) => match pdu.body() {
            Body::Metadata(metadata) => Some(metadata.get().closure),
            _ => None,
        },
        _ => None,
    }
}

// The EOF that an event carries, if it has no error.
fn eof_in(event: &What) -> Option<Eof>
    ensures { result ≡ eof_of (body_of_event event.now) }
{
    match event {
        What::Pdu(pdu) => match pdu.body() {
            Body::Eof(eof) => {
                if eof.condition == Condition::NO_ERROR {
                    Some(*eof)
                } else {
                    None
                }
            }
            _ => None,
        },
        _ => None,
    }
}

// One more than the greatest offset of the file data that an event carries, 0 if there is none.
fn extent_of(event: &What) -> u32
    requires { is_too_large event.now ≡ false }
    ensures { result ≡ extent_of (file_data_of (body_of_event event.now)) }
{
    match event {
        What::Pdu(pdu) => match pdu.body() {
            Body::FileData(file_data) => {
                let count = file_data.octets.as_slice().len();
                if count == 0 {
                    0
                } else {
                    (file_data.offset + count as u64) as u32
                }
            }
            _ => 0,
        },
        _ => 0,
    }
}

// The stamp of the deposit that is waiting after an event, which may hand over a deposit.
fn waiting_after(waiting: Option<u32>, event: &What, deposit: Option<Deposit>) -> Option<u32>
    ensures { result ≡ waiting_after waiting event.now deposit }
{
    match event {
        What::Stored(_, _) => None,
        _ => match deposit {
            None => waiting,
            Some(deposit) => Some(deposit.stamp),
        },
    }
}

// The counts after an event that is not an expiration; `more` is as in `tries_after`.
fn unexpired(tries: Tries, resumed: bool, more: bool) -> Tries
    ensures { (kind : TimerKind) → tries_of result kind
        ≡ (if resumed || is_reset (record { ack = false; nak = more }) kind then 0 else tries_of tries kind) }
{
    if resumed {
        Tries::NONE
    } else if more {
        Tries { nak: 0, ..tries }
    } else {
        tries
    }
}

// The counts after an event with these indications; `more` says whether the event brings more of the file.
fn tries_after(tries: Tries, event: &What, inds: &[Indication], more: bool) -> Tries
    requires { AreUpTo JOURNAL_ENTRIES tries }
    ensures { (kind : TimerKind) → tries_of result kind
        ≡ tries_by event.now inds.now (record { ack = false; nak = more }) kind (tries_of tries kind) }
{
    match event {
        What::Timer(_, _) => tries.after(event, inds, resets(more)),
        _ => unexpired(tries, has_resumed(inds), more),
    }
}

// Which counts begin again: Nak's where `more` of the file was received.
fn resets(more: bool) -> CountResets
    ensures { result ≡ record { ack = false; nak = more } }
{
    CountResets {
        ack: false,
        nak: more,
    }
}

/// The control block with an event, before the event is answered; `more` says whether the event brings more of the
/// file.
pub fn with_event(control: &ControlBlock, event: &What, more: bool) -> ControlBlock
    requires few { AreFew control.now.entries control.now.tries }
    requires small { is_too_large event.now ≡ false }
    ensures { IsWithEvent control.now event.now more result }
{
    ControlBlock {
        entries: control.entries + 1,
        progress: control.progress.max(extent_of(event)),
        closure: match control.closure {
            None => closure_in(event),
            Some(closure) => Some(closure),
        },
        eof: match control.eof {
            None => eof_in(event),
            Some(eof) => Some(eof),
        },
        waiting: waiting_after(control.waiting, event, None),
        tries: tries_after(control.tries, event, &[], more),
        ..*control
    }
}

/// Turns `current`, the control block with an event, into the one after the event is answered with a response and a
/// deposit. Leaves the timers to the caller. `control` is the control block before the event.
pub fn settle(
    current: &mut ControlBlock,
    control: &ControlBlock,
    event: &What,
    response: &Response,
    deposit: Option<Deposit>,
    more: bool,
)
    requires few { AreFew control.now.entries control.now.tries }
    ensures { IsNext control.now current.old event.now response.now deposit more current.new }
{
    let inds = response.inds.as_slice();
    current.waiting = waiting_after(control.waiting, event, deposit);
    current.finished = match response.finished {
        None => control.finished,
        Some(finished) => Some(finished),
    };
    current.paused = paused_after(control.paused, inds);
    current.ended = control.ended || response.inds.has_end();
    current.tries = tries_after(control.tries, event, inds, more);
}

// Whether all timers are stopped: the transaction has ended, waits for the file store, or is suspended.
fn is_quiet(next: &ControlBlock) -> bool
    ensures { result ≡ is_quiet next.now }
{
    next.ended || next.is_storing() || next.is_suspended()
}

// Whether a response arms the timer of a kind.
fn arms(response: &Response, kind: TimerKind) -> bool
    ensures { result ≡ has_kind (arms_of response.now) kind }
{
    let first = response.resumes && kind == TimerKind::Inactivity;
    match response.arms {
        None => first,
        Some(armed) => first || armed == kind,
    }
}

// Whether an event shows that the sender is active: an accepted PDU does, but a Prompt for a NAK does not.
fn is_sign_of_life(event: &What) -> bool
    ensures { result ≡ is_sign_of_life event.now }
{
    match event {
        What::Pdu(pdu) => !matches!(pdu.body(), Body::Prompt(Prompt::Nak)),
        _ => false,
    }
}

// What a step does to the timer of a kind.
fn change_of(quiet: bool, closing: bool, armed: bool, lives: bool, kind: TimerKind) -> TimerChange
    ensures { effect_of_change result ≡ (if quiet then steps.stops
        else if closing && not (is_kind kinds.Ack kind) then steps.stops
        else if armed then steps.arms
        else if is_kind kinds.Inactivity kind && lives then steps.arms
        else steps.keeps) }
{
    if quiet || (closing && kind != TimerKind::Ack) {
        TimerChange::Stops
    } else if armed || (kind == TimerKind::Inactivity && lives) {
        TimerChange::Arms
    } else {
        TimerChange::Keeps
    }
}

/// What a step does to each timer, where `next` is the control block after it.
pub fn changes(next: &ControlBlock, event: &What, response: &Response) -> TimerChanges
    ensures { (kind : TimerKind) → effects result kind ≡ effect_of (response_value response.now) (bare next.now)
        event.now kind }
{
    let quiet = is_quiet(next);
    let closing = next.is_closing();
    let lives = is_sign_of_life(event);
    let (ack, nak) = (TimerKind::Ack, TimerKind::Nak);
    let (check, inactivity) = (TimerKind::Check, TimerKind::Inactivity);
    TimerChanges {
        ack: change_of(quiet, closing, arms(response, ack), lives, ack),
        nak: change_of(quiet, closing, arms(response, nak), lives, nak),
        check: change_of(quiet, closing, arms(response, check), lives, check),
        inactivity: change_of(
            quiet,
            closing,
            arms(response, inactivity),
            lives,
            inactivity,
        ),
    }
}
