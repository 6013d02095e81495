//! Where files wait for each other's lanes, by a configuration.
use crate::readiness::lanes_toward;
use entity_config::Config;
use program_lineup::{better_counts, is_shared};
use program_status::LaneHint;
use station_config::PeerLanes;
use std::alloc::{AllocError, Global};

/// The remote entities whose receiving lanes the sending lanes of this one don't divide. `peers` says how many
/// receiving lanes they have; others have as many as this one.
pub fn hints_of(
    alloc: Global,
    config: &Config,
    peers: &[PeerLanes],
) -> Result<Vec<LaneHint>, AllocError> {
    let sending = (config.users() as u64).saturating_mul(config.entity().put_lanes as u64);
    let mut hints = Vec::with_capacity(alloc, config.remotes())?;
    for place in 0..config.remotes() {
        let Some(remote) = config.remote_at(place) else {
            break;
        };
        let receiving = lanes_toward(config, peers, remote.id) as u64;
        if is_shared(sending, receiving) {
            hints.push(LaneHint {
                remote: remote.id,
                sending,
                receiving,
                better: better_counts(alloc, receiving)?,
            })?;
        }
    }
    Ok(hints)
}

/// Adds a line for each of them, in words.
pub fn push_hints(text: &mut String, hints: &[LaneHint]) -> Result<(), AllocError> {
    for hint in hints {
        let remote = hint.remote.0;
        let (sending, receiving) = (hint.sending, hint.receiving);
        write!(
            text,
            "note: {sending} sending lanes don't divide the {receiving} receiving lanes of entity {remote}, so files wait for each other"
        )?;
        push_better(text, hint.better.as_slice())?;
    }
    Ok(())
}

// Adds which numbers of sending lanes are better.
fn push_better(text: &mut String, better: &[u64]) -> Result<(), AllocError> {
    text.push_str("; better:")?;
    for count in better {
        write!(text, " {count}")?;
    }
    text.push_str("\n")
}
