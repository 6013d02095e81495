//! The numbers of a server's Puts.
use cfdp_types::TxnKey;
use program_numbers::HeldNumbers;
use std::rt::Files;

/// The file of a server's numbers, if there is one.
#[derive(Drop)]
pub struct Numbers<R: Files + AllocGlobal + Drop> {
    pub held: Option<HeldNumbers<R>>,
}

impl<R: Files + AllocGlobal + Drop> Numbers<R> {
    /// Whether the file covers the next Put's number. Without a file it is covered.
    pub fn covers(&mut self) -> bool {
        match &mut self.held {
            Some(held) => held.cover().is_ok(),
            None => true,
        }
    }

    /// Notes a Put that opened a transaction.
    pub fn note_put(&mut self, key: TxnKey) {
        if let Some(held) = &mut self.held {
            held.note_put(key);
        }
    }

    /// Leaves the file to others.
    pub fn leave(&self, rt: &R) {
        if let Some(held) = &self.held {
            held.leave(rt);
        }
    }
}
