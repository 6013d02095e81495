//! Why a lane itself refuses an event, before its end is asked.
ghost use Rattle.std.specs.Prelude.{◌≡◌, ◌==◌, ℕ, is_some, Ok, Err};
ghost use Rattle.txn_events.specs.declared.refusal.Refusal.{Refusal as RefusalValue};
ghost use Rattle.lane_table.specs.Lane.{is_above};
ghost use Rattle.lane_table.specs.Logs.{opened_by};
ghost use Rattle.txn_events.specs.Events.{echo_of};
ghost use Rattle.pdu_values.specs.Spelling.{HeaderFits};
ghost use Rattle.pdu_values.specs.declared.pdu.Body.TheVariants as body;
ghost use Rattle.pdu_values.specs.declared.bodies.TransactionStatus.TheVariants.{Terminated};
ghost use Rattle.cfdp_types.specs.declared.key.TxnKey.{TxnKey as KeyValue};
ghost use Rattle.txn_events.specs.declared.event.Event.TheVariants.{On};
ghost use Rattle.lane_table.specs.Steps.{echo_to};
ghost use Rattle.txn_lane.specs.LaneCode.{refused_by_key, refused_put};

use cfdp_types::{Class, Condition, EntityId, TxnKey};
use lane_table::{Echo, LaneSide, Refused};
use pdu_values::{Ack, Acknowledged, Body, Direction, Header, Pdu, TransactionStatus};
use txn_events::{Refusal, What, body_opens};

/// What the refusals of a lane depend on.
#[derive(Clone, Copy)]
pub(crate) struct LaneView {
    pub(crate) source: EntityId,
    /// The number of the transaction that it opened last.
    pub(crate) last: Option<u64>,
    pub(crate) is_running: bool,
}

/// A refusal without an echo.
pub(crate) fn plainly(why: Refusal) -> Refused
    ensures { result ≡ record { why = why; echo = None } }
{
    Refused { why, echo: None }
}

// The ACK of an EOF or a Finished PDU of a terminated transaction, with that PDU's condition code.
fn late_ack(header: Header, of: Acknowledged, condition: Condition) -> Echo
    requires { HeaderFits header }
    ensures { result ≡ record
        { header = header; body = body.Ack (record { of = of; condition = condition; status = Terminated }) } }
{
    let status = TransactionStatus::Terminated;
    Echo::new(
        header,
        Ack {
            of,
            condition,
            status,
        },
    )
}

// The echo of a PDU of a terminated transaction: in class 2 an EOF and a Finished are acknowledged.
fn echo_of(pdu: &Pdu) -> Option<Echo>
    ensures { result ≡ echo_of pdu.now }
{
    let (header, body) = pdu.parts();
    match header.class {
        Class::One => None,
        Class::Two => match body {
            Body::Eof(eof) => {
                let back = Header {
                    direction: Direction::TowardSender,
                    ..*header
                };
                Some(late_ack(back, Acknowledged::Eof, eof.condition))
            }
            Body::Finished(finished) => {
                let back = Header {
                    direction: Direction::TowardReceiver,
                    ..*header
                };
                Some(late_ack(back, Acknowledged::Finished, finished.condition))
            }
            _ => None,
        },
    }
}

// The echo of an event, if it is a PDU that gets one.
fn echo_to(event: &What) -> Option<Echo>
    ensures { (key : KeyValue) → result ≡ echo_to (On key event.now) }
{
    match event {
        What::Pdu(pdu) => echo_of(pdu),
        _ => None,
    }
}

/// Whether a number is above the last one.
pub(crate) fn is_above(number: u64, last: Option<u64>) -> bool
    ensures { result ≡ is_above number last }
{
    match last {
        None => true,
        Some(last) => number > last,
    }
}

/// Whether an event opens a transaction at a lane for which its key is new.
pub(crate) fn opens_at(side: &LaneSide, event: &What) -> bool
    ensures { (key opened : KeyValue) → result ≡ is_some (opened_by side.now opened (On key event.now)) }
{
    match (side, event) {
        (LaneSide::Receiving(_), What::Pdu(pdu)) => body_opens(pdu.body()),
        _ => false,
    }
}

/// Why a lane refuses an event with a key; `opens` says whether the event would open a transaction there.
pub(crate) fn refused_by_key(
    lane: LaneView,
    opens: bool,
    key: TxnKey,
    event: &What,
) -> Option<Refused>
    ensures { result ≡ refused_by_key lane.source lane.last lane.is_running opens key event.now }
{
    let is_new = is_above(key.seq, lane.last);
    if key.source.0 != lane.source.0 || (is_new && !opens) {
        return Some(plainly(Refusal::NoTransaction));
    }
    let is_of_running = lane.last == Some(key.seq) && lane.is_running;
    if !is_new && !is_of_running {
        return Some(Refused {
            why: Refusal::OldTransaction,
            echo: echo_to(event),
        });
    }
    if opens && lane.is_running {
        return Some(plainly(Refusal::LaneBusy));
    }
    None
}

/// Why a lane refuses a Put; `number` is what the Put would get, or why it would get none.
pub(crate) fn refused_put(is_running: bool, number: Result<u64, Refusal>) -> Option<Refused>
    ensures taken { (seq : ℕ) → number ≡ Ok seq → result ≡ refused_put is_running None }
    ensures refused { (why : RefusalValue) → number ≡ Err why → result ≡ refused_put is_running (Some why) }
{
    if is_running {
        return Some(plainly(Refusal::LaneBusy));
    }
    match number {
        Ok(_) => None,
        Err(why) => Some(plainly(why)),
    }
}
