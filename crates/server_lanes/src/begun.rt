//! What the outbox began in each sending lane.
use cfdp_types::TxnKey;
use entity_config::Config;
use entity_routing::Place;
use std::alloc::{AllocError, Global};

/// The last transaction that the outbox began in each sending lane, by user and lane; and the number in the outbox of
/// each file whose transaction isn't known to have ended.
#[derive(Drop)]
pub struct Begun {
    put_lanes: usize,
    keys: Vec<Option<TxnKey>>,
    numbers: Vec<Option<u64>>,
    looks: bool,
}

impl Begun {
    /// The outbox has begun none.
    pub fn new(alloc: Global, config: &Config) -> Result<Begun, AllocError> {
        let put_lanes = config.entity().put_lanes;
        let count = config.users().saturating_mul(put_lanes);
        Ok(Begun {
            put_lanes,
            keys: Vec::from_elem(alloc, None, count)?,
            numbers: Vec::from_elem(alloc, None, count)?,
            looks: false,
        })
    }

    // The index of a lane.
    fn index_of(&self, place: Place) -> usize {
        place
            .user
            .saturating_mul(self.put_lanes)
            .saturating_add(place.lane)
    }

    /// Notes that the outbox has begun a transaction in a lane, for the file with a number. Returns the number of the
    /// file before it there, unless the end of that one's transaction was noted.
    pub fn note(&mut self, place: Place, key: TxnKey, number: u64) -> Option<u64> {
        let index = self.index_of(place);
        if let Some(last) = self.keys.get_mut(index) {
            *last = Some(key);
        }
        match self.numbers.get_mut(index) {
            Some(last) => last.replace(number),
            None => None,
        }
    }

    /// The transaction of a lane whose end isn't noted, and the number of its file.
    pub fn under_way(&self, place: Place) -> Option<(TxnKey, u64)> {
        let index = self.index_of(place);
        let key = self.keys.get(index).copied()??;
        let number = self.numbers.get(index).copied()??;
        Some((key, number))
    }

    /// Notes the end of a lane's transaction.
    pub fn note_end(&mut self, place: Place) {
        let index = self.index_of(place);
        if let Some(last) = self.numbers.get_mut(index) {
            *last = None;
        }
    }

    /// Whether lanes are to be looked at, because a transaction may have ended.
    pub fn looks(&self) -> bool {
        self.looks
    }

    /// Says whether lanes are to be looked at.
    pub fn look_again(&mut self, looks: bool) {
        self.looks = looks;
    }

    /// Whether the outbox began a transaction of a lane.
    pub fn has(&self, place: Place, key: TxnKey) -> bool {
        self.keys.get(self.index_of(place)) == Some(&Some(key))
    }
}
