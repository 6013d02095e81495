//! A transaction's recording: its first lines and its script.
ghost use Rattle.std.specs.Prelude.{◌≡◌, ◌≢◌, ◌≤◌, ◌⊎◌, ◌/◌, ◌*◌, ◌^◌, ◌++◌, IfOk, IfNone, IfSome, length, None, string_bytes};
ghost use Rattle.program_recorder.specs.Recordings.{IsRecordingOf};

use crate::heading::{Facts, push_heading};
use cfdp_types::TxnKey;
use entity_config::Config;
use entity_routing::Place;
use journal_recording::{ScriptFault, script_of};
use std::alloc::Global;
use txn_events::Event;

/// A recording: its first lines, and then its script.
#[derive(Debug, Drop)]
pub struct Recording {
    pub heading: String,
    pub script: String,
}

/// Records the transaction of a journal. `config` is the configuration that its entity ran with, and `place` is its
/// lane's place. For a transaction that the entity itself opened, `first` says where the numbers of its lanes have to
/// begin.
pub fn recording_of(
    alloc: Global,
    config: Config,
    first: Option<u64>,
    place: Place,
    facts: &Facts<'_>,
    journal: &[Event],
) -> Result<Recording, ScriptFault>
    ensures { IfOk result (λ recording. IsRecordingOf config first place facts.now journal.now recording) }
{
    let mut heading = String::new(alloc);
    push_heading(alloc, &mut heading, facts)?;
    let script = script_of(alloc, config, first, place, journal)?;
    Ok(Recording { heading, script })
}

/// Where the numbers of a fresh entity's lanes have to begin for it to open this transaction. `None` for a transaction
/// that another entity opened.
pub fn first_of(config: &Config, key: TxnKey) -> Option<u64>
    ensures some { IfSome result (λ first. (key.source ≡ config.now.entity.local)
        × (first ≡ key.seq / (config.now.entity.put_lanes * length config.now.users))) }
    ensures none { IfNone result ((key.source ≢ config.now.entity.local)
        ⊎ ((config.now.entity.put_lanes * length config.now.users ≡ 0) ⊎ (2 ^ 64 ≤ config.now.entity.put_lanes * length config.now.users))) }
{
    let entity = config.entity();
    if key.source != entity.local {
        return None;
    }
    let lanes = entity.put_lanes as u64;
    let width = lanes.checked_mul(config.users() as u64)?;
    key.seq.checked_div(width)
}
