//! Which transactions have a recording in a folder, the oldest one first.
ghost use Rattle.std.specs.Prelude.{◌≡◌, ◌∷◌, ◌++◌, [], OnOk, Some};

use cfdp_types::TxnKey;
use std::alloc::{AllocError, Global};
use std::collections::VecDeque;

/// The transactions that have a recording, the oldest one first.
#[derive(Debug, Drop)]
pub struct KeptKeys {
    keys: VecDeque<TxnKey>,
}

impl KeptKeys {
    /// No transaction.
    pub fn new(alloc: Global) -> KeptKeys {
        KeptKeys {
            keys: VecDeque::new(alloc),
        }
    }

    /// How many there are.
    pub fn count(&self) -> usize {
        self.keys.len()
    }

    /// Adds a transaction as the newest one, or moves it there if it is among them already.
    pub fn note(&mut self, key: TxnKey) -> Result<(), AllocError> {
        if let Some(place) = self.place_of(key)
            && place < self.keys.len()
        {
            let _older = self.keys.remove(place);
        }
        self.keys.push_back(key)?;
        Ok(())
    }

    /// Removes the oldest one and returns it, if there are more than `most`.
    pub fn take_over(&mut self, most: usize) -> Option<TxnKey> {
        if self.keys.len() > most {
            self.keys.pop_front()
        } else {
            None
        }
    }

    fn place_of(&self, key: TxnKey) -> Option<usize> {
        self.keys.iter().position(|kept| *kept == key)
    }
}
