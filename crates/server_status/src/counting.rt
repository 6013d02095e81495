//! What a server counts if that is asked for.
use entity_config::Config;
use program_status::StationCounts;
use program_storing::Depot;
use program_tallies::Tallies;
use station_lines::{Moment, StoreStatus};
use std::alloc::{AllocError, Global};
use std::sync::Wait;

/// Begins to count, if that is asked for.
pub fn counts_of(
    alloc: Global,
    counts: bool,
    config: &Config,
    tallies: &Tallies,
) -> Result<Option<StationCounts>, AllocError> {
    if !counts {
        return Ok(None);
    }
    tallies.hear();
    Ok(Some(StationCounts::new(alloc, config)?))
}

/// The last received file that the store was given, if it was given one.
pub(crate) fn last_store<R: Wait>(rt: &R, depot: &Depot) -> Option<StoreStatus> {
    let last = depot.last_store(rt)?;
    Some(StoreStatus {
        source: last.key.source,
        seq: last.key.seq,
        at: Moment(last.at),
        microseconds: last.microseconds,
        why: last.why,
    })
}
