//! What a step needs besides its plan, all of it allocated before anything changes: a copy of its event, the bundle of
//! its indications, and room in the journal and the trace.
ghost use Rattle.std.specs.Prelude.{◌≡◌, ◌<◌, ◌≤◌, ◌+◌, [], IfOk, OnOk, length, vec_len, vec_capacity};
ghost use Rattle.txn_events.specs.declared.event.Event.TheVariants.{On};
ghost use Rattle.txn_lane.specs.Handing.{bundle_for};

use crate::handing::{LaneAddress, bundle_for};
use cfdp_types::TxnKey;
use indications::{Bundle, Indication, Indications};
use std::alloc::AllocError;
use txn_events::{Event, What};

// Initial room in the journal and in the trace of a transaction: enough for a small file that arrives in order.
const FIRST_ROOM: usize = 5;

/// A copy of an event, and the bundle of its indications.
#[derive(Drop)]
pub(crate) struct Copies {
    pub(crate) event: Event,
    pub(crate) bundle: Option<Bundle>,
}

/// The copies for an event that opens a transaction, and its new journal and trace, which have room for them.
pub(crate) fn copies_to_begin(
    address: LaneAddress,
    key: TxnKey,
    event: &Event,
    inds: &Indications,
) -> Result<(Copies, Vec<Event>, Vec<Indication>), AllocError>
    ensures event { IfOk result (λ begun. begun.0.event ≡ event.now) }
    ensures bundle { IfOk result (λ begun. begun.0.bundle ≡ bundle_for address.user address.lane key inds.now) }
    ensures empty { IfOk result (λ begun. (begun.1.items ≡ []) × (begun.2.items ≡ [])) }
    ensures journal_room { IfOk result (λ begun. vec_len begun.1 < vec_capacity begun.1) }
    ensures trace_room { IfOk result (λ begun. vec_len begun.2 + length inds.now ≤ vec_capacity begun.2) }
{
    let bundle = bundle_for(address.user, address.lane, key, inds)?;
    let journal = Vec::with_capacity(address.alloc, FIRST_ROOM)?;
    let trace = Vec::with_capacity(address.alloc, inds.as_slice().len().max(FIRST_ROOM))?;
    let event = event.copy()?;
    Ok((Copies { event, bundle }, journal, trace))
}

/// The copies for a later event of a transaction; makes room for them in its journal and trace.
pub(crate) fn copies_to_go_on(
    address: LaneAddress,
    key: TxnKey,
    what: &What,
    inds: &Indications,
    journal: &mut Vec<Event>,
    trace: &mut Vec<Indication>,
) -> Result<Copies, AllocError>
    ensures same { (journal.new.items ≡ journal.old.items) × (trace.new.items ≡ trace.old.items) }
    ensures event { IfOk result (λ copies. copies.event ≡ On key what.now) }
    ensures bundle { IfOk result (λ copies. copies.bundle ≡ bundle_for address.user address.lane key inds.now) }
    ensures journal_room { OnOk result (vec_len journal.new < vec_capacity journal.new) }
    ensures trace_room { OnOk result (vec_len trace.new + length inds.now ≤ vec_capacity trace.new) }
{
    let bundle = bundle_for(address.user, address.lane, key, inds)?;
    journal.reserve(1)?;
    trace.reserve(inds.as_slice().len())?;
    let event = Event::On(key, what.copy()?);
    Ok(Copies { event, bundle })
}
