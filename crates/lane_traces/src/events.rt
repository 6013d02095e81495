ghost use Rattle.std.specs.Prelude.{◌≡◌, IfOk, IfErr};
ghost use Rattle.txn_events.specs.Logs.{IsWhy};
ghost use Rattle.lane_traces.specs.Traces.{events_by};

use cfdp_types::TxnKey;
use std::alloc::{AllocError, Global};
use txn_events::{Event, Refusal};

/// Copies of the events that the transaction with `key` has accepted, in order. They share their octets. `last` is the
/// lane's last key, and `journal` has that transaction's events. Other keys are refused as by [`crate::how_far`].
pub fn events_of(
    alloc: Global,
    last: Option<TxnKey>,
    journal: &[Event],
    key: TxnKey,
) -> Result<Vec<Event>, Refusal>
    ensures events { IfOk result (λ events. events_by last journal.now key ≡ Ok events.items) }
    ensures refused { IfErr result (λ why. IsWhy (events_by last journal.now key) why) }
{
    match last {
        None => Err(Refusal::NoTransaction),
        Some(last) if last == key => match copies_of(alloc, journal) {
            Ok(events) => Ok(events),
            Err(_) => Err(Refusal::NoMemory),
        },
        Some(last) if last.source == key.source && key.seq < last.seq => {
            Err(Refusal::OldTransaction)
        }
        Some(_) => Err(Refusal::NoTransaction),
    }
}

// Copies of events, in order.
fn copies_of(alloc: Global, events: &[Event]) -> Result<Vec<Event>, AllocError>
    ensures { IfOk result (λ copies. copies.items ≡ events.now) }
{
    let mut copies = Vec::with_capacity(alloc, events.len())?;
    for event in events {
        copies.push(event.copy()?)?;
    }
    Ok(copies)
}
