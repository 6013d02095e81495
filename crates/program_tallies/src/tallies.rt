//! What all threads of a program count.
use crate::ledger::Ledger;
use crate::links::Links;
use crate::traffic::{RemoteTotals, Totals, Traffic};
use std::alloc::{AllocError, Global};

/// What all threads of a program count, and which links are held.
#[derive(Drop)]
pub struct Tallies {
    /// Counted by the main thread.
    pub own: Traffic,
    /// Counted by each worker.
    pub workers: Vec<Traffic>,
    pub ledger: Ledger,
    pub links: Links,
}

impl Tallies {
    /// All counts at 0, for this many workers and remote entities.
    pub fn new(alloc: Global, workers: usize, remotes: usize) -> Result<Tallies, AllocError> {
        let mut all = Vec::with_capacity(alloc, workers)?;
        for _ in 0..workers {
            all.push(Traffic::new(alloc, remotes)?)?;
        }
        Ok(Tallies {
            own: Traffic::new(alloc, remotes)?,
            workers: all,
            ledger: Ledger::new(alloc)?,
            links: Links::new(alloc, remotes)?,
        })
    }

    /// The sums over all threads.
    pub fn totals(&self) -> Totals {
        let mut totals = Totals::default();
        self.own.add_to(&mut totals);
        for worker in &self.workers {
            worker.add_to(&mut totals);
        }
        totals
    }

    /// The sums over all threads for the remote entity at a place of the configuration.
    pub fn remote_totals(&self, place: usize) -> RemoteTotals {
        let mut totals = RemoteTotals::default();
        self.own.add_remote_to(place, &mut totals);
        for worker in &self.workers {
            worker.add_remote_to(place, &mut totals);
        }
        totals
    }

    /// Makes all threads note from now on when remote entities are heard.
    pub fn hear(&self) {
        self.own.hear();
        for worker in &self.workers {
            worker.hear();
        }
    }

    /// When the last PDU came from the remote entity at a place of the configuration, in milliseconds since 1970.
    /// `None` if none came, or none was noted.
    pub fn heard(&self, place: usize) -> Option<u64> {
        let mut last = self.own.heard(place);
        for worker in &self.workers {
            last = last.max(worker.heard(place));
        }
        if last == 0 { None } else { Some(last) }
    }
}
