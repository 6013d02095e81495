//! What was seen of each lane's last transaction.
ghost use Rattle.std.specs.Prelude.{◌≡◌, Some, OnOk};
ghost use Rattle.program_recorder.specs.Sights.{begun_at};

use cfdp_types::TxnKey;
use entity_config::Config;
use entity_routing::lanes_of;
use indications::{Bundle, Indication, Indications};
use station_lines::Moment;
use std::alloc::{AllocError, Global};

/// What was seen of a lane's last transaction.
#[derive(Debug, Drop)]
pub struct Seen {
    /// The transaction, if there was one.
    pub key: Option<TxnKey>,
    /// When its first and its last indication came.
    pub begun: Option<Moment>,
    pub last: Option<Moment>,
    /// The indication that ended it, if it has ended.
    pub end: Option<Indication>,
}

impl Seen {
    /// Nothing was seen.
    pub fn nothing() -> Seen {
        Seen {
            key: None,
            begun: None,
            last: None,
            end: None,
        }
    }

    /// A copy.
    pub fn copy(&self) -> Result<Seen, AllocError> {
        let end = match &self.end {
            Some(end) => Some(end.copy()?),
            None => None,
        };
        Ok(Seen {
            key: self.key,
            begun: self.begun,
            last: self.last,
            end,
        })
    }

    /// The indication that ended the transaction, as a separate bundle.
    pub fn end_bundle(
        &self,
        alloc: Global,
        user: usize,
        lane: usize,
    ) -> Result<Option<Bundle>, AllocError> {
        match (self.key, &self.end) {
            (Some(key), Some(end)) => {
                let mut inds = Indications::new(alloc);
                inds.push(end.copy()?)?;
                Ok(Some(Bundle {
                    user,
                    lane,
                    key,
                    inds,
                }))
            }
            _ => Ok(None),
        }
    }

    // Notes a bundle of the lane.
    fn note(&mut self, bundle: &Bundle, at: Moment)
        ensures key { self.new.key ≡ Some bundle.now.key }
        ensures begun { self.new.begun ≡ begun_at self.old.key self.old.begun bundle.now.key at }
        ensures last { self.new.last ≡ Some at }
    {
        self.begun = begun_at(self.key, self.begun, bundle.key, at);
        self.key = Some(bundle.key);
        self.last = Some(at);
        self.end = end_in(bundle.inds.as_slice());
    }
}

// When a transaction began: at the first bundle of it.
fn begun_at(
    before: Option<TxnKey>,
    begun: Option<Moment>,
    key: TxnKey,
    at: Moment,
) -> Option<Moment>
    ensures { result ≡ begun_at before begun key at }
{
    match before {
        Some(before) if before == key => begun,
        _ => Some(at),
    }
}

// The last indication, if it ends a transaction.
fn end_in(indications: &[Indication]) -> Option<Indication> {
    let last = indications.last()?;
    if last.is_end() {
        last.copy().ok()
    } else {
        None
    }
}

/// What was seen of each lane of each user.
#[derive(Drop)]
pub struct Sightings {
    users: Vec<Vec<Seen>>,
}

impl Sightings {
    /// Nothing was seen of any lane of a configuration's users.
    pub fn new(alloc: Global, config: &Config) -> Result<Sightings, AllocError> {
        let mut all = Vec::with_capacity(alloc, config.users())?;
        for user in 0..config.users() {
            let count = lanes_of(config, user);
            let mut lanes = Vec::with_capacity(alloc, count)?;
            for _ in 0..count {
                lanes.push(Seen::nothing())?;
            }
            all.push(lanes)?;
        }
        Ok(Sightings { users: all })
    }

    /// Notes a bundle that came at a moment.
    pub fn note(&mut self, bundle: &Bundle, at: Moment) {
        let Some(lanes) = self.users.get_mut(bundle.user) else {
            return;
        };
        if let Some(seen) = lanes.get_mut(bundle.lane) {
            seen.note(bundle, at);
        }
    }

    /// What was seen of this transaction of a lane.
    pub fn of(&self, user: usize, lane: usize, key: TxnKey) -> Result<Seen, AllocError> {
        match self.users.get(user).and_then(|lanes| lanes.get(lane)) {
            Some(seen) if seen.key == Some(key) => seen.copy(),
            _ => Ok(Seen::nothing()),
        }
    }
}
