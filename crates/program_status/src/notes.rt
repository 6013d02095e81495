//! What the server saw last of each lane.
use cfdp_types::TxnKey;
use entity_config::Config;
use entity_routing::lanes_of;
use indications::{Bundle, Indication};
use station_lines::{Ending, Moment};
use std::alloc::{AllocError, Global};

/// What the server saw last of a lane's transactions.
#[derive(Clone, Copy, Debug)]
pub struct LaneNote {
    /// The last transaction that was seen, if there was one.
    pub key: Option<TxnKey>,
    /// When its last indication was issued.
    pub last: Option<Moment>,
    /// How it ended, if it did.
    pub ending: Option<Ending>,
}

impl LaneNote {
    const NOTHING: LaneNote = LaneNote {
        key: None,
        last: None,
        ending: None,
    };
}

/// What the server saw last of each lane of each user.
#[derive(Drop)]
pub struct LaneNotes {
    users: Vec<Vec<LaneNote>>,
}

impl LaneNotes {
    /// Notes without entries, for all lanes of a configuration's users.
    pub fn new(alloc: Global, config: &Config) -> Result<LaneNotes, AllocError> {
        let mut all = Vec::with_capacity(alloc, config.users())?;
        for user in 0..config.users() {
            let lanes = lanes_of(config, user);
            all.push(Vec::from_elem(alloc, LaneNote::NOTHING, lanes)?)?;
        }
        Ok(LaneNotes { users: all })
    }

    /// What was seen of this transaction of a lane.
    pub fn of(&self, user: usize, lane: usize, key: TxnKey) -> LaneNote {
        match self.users.get(user).and_then(|lanes| lanes.get(lane)) {
            Some(note) if note.key == Some(key) => *note,
            _ => LaneNote::NOTHING,
        }
    }

    /// Notes a bundle that came at a moment.
    pub fn note(&mut self, bundle: &Bundle, at: Moment) {
        let Some(lanes) = self.users.get_mut(bundle.user) else {
            return;
        };
        if let Some(note) = lanes.get_mut(bundle.lane) {
            *note = LaneNote {
                key: Some(bundle.key),
                last: Some(at),
                ending: ending_in(bundle.inds.as_slice()),
            };
        }
    }
}

// How a transaction ended, if the last of these indications ends it.
fn ending_in(indications: &[Indication]) -> Option<Ending> {
    match indications.last()? {
        Indication::TransactionFinished {
            condition,
            delivery,
            status,
        } => Some(Ending::Finished {
            condition: *condition,
            delivery: *delivery,
            status: *status,
        }),
        Indication::Abandoned { condition, .. } => Some(Ending::Abandoned {
            condition: *condition,
        }),
        _ => None,
    }
}
