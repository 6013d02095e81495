//! Recordings of transactions.
use crate::commands::Next;
use cfdp_types::TxnKey;
use program_seats::Asker;
use server_answers::{push_entity_refusal, push_no_memory};
use server_requests::Working;
use shared_lanes::Names;
use std::alloc::AllocError;
use std::rt::Files;
use std::sync::Wait;
use std::time::Clock;

/// Leaves the transactions that have ended to be recorded.
pub(crate) fn record_ended<N: Names, R: Wait + Clock + Files + AllocGlobal + Copy + Drop>(
    work: &mut Working<'_, '_, N, R>,
) {
    let entity = work.station.entity();
    work.audience
        .watched
        .record_ended(work.rt, work.alloc, entity);
}

/// Leaves a transaction to be recorded for whoever asks, or replies why that can't be done.
pub(crate) fn record_for<N: Names, R: Wait + Clock + Files + AllocGlobal + Copy + Drop>(
    work: &mut Working<'_, '_, N, R>,
    key: TxnKey,
    asker: Option<Asker>,
    text: &mut String,
) -> Result<Next, AllocError> {
    let (rt, entity) = (work.rt, work.station.entity());
    if let Err(refusal) = entity.trace(rt, key) {
        push_entity_refusal(work.alloc, text, &refusal)?;
        return Ok(Next::GoesOn);
    }
    if !work.audience.watched.record_for(rt, entity, key, asker) {
        push_no_memory(text)?;
        return Ok(Next::GoesOn);
    }
    Ok(Next::Later)
}
