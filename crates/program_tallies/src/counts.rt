ghost use Rattle.std.specs.Prelude.{◌≡◌, ◌<◌, IfOk, replicate};
ghost use Rattle.program_tallies.specs.Counts.{class_place, count_of, noted, number_of, place_of, role_place};

use std::alloc::{AllocError, Global};
use std::marker::Model;

/// How many condition codes there are.
pub const CONDITIONS: u8 = 16;

// How many counts there are: for each role, class and condition code.
const COUNTS: usize = 96;

/// Which end of a transaction runs here.
#[derive(Clone, Copy, Debug, PartialEq, Eq)]
pub enum Role {
    Sender,
    Receiver,
}

impl Role {
    // The place of its first count.
    fn place(self) -> usize
        ensures { result ≡ role_place self }
    {
        match self {
            Role::Sender => 0,
            Role::Receiver => 48,
        }
    }
}

/// A transaction's class, as far as it is known.
#[derive(Clone, Copy, Debug, PartialEq, Eq)]
pub enum Class {
    Unknown,
    One,
    Two,
}

impl Class {
    /// Its number, or 0 if it isn't known.
    pub fn number(self) -> u8
        ensures { result ≡ number_of self }
    {
        match self {
            Class::Unknown => 0,
            Class::One => 1,
            Class::Two => 2,
        }
    }

    // The place of its first count, counted from that of a role.
    fn place(self) -> usize
        ensures { result ≡ class_place self }
    {
        match self {
            Class::Unknown => 0,
            Class::One => 16,
            Class::Two => 32,
        }
    }
}

/// Transactions that are counted together. Only the last four bits of the condition code count.
#[derive(Clone, Copy, Debug, PartialEq, Eq)]
pub struct Ended {
    pub role: Role,
    pub class: Class,
    pub condition: u8,
}

impl Ended {
    // The place of its count.
    fn place(self) -> usize
        ensures place { result ≡ place_of self }
        ensures bound { result < 96 }
    {
        self.role.place() + self.class.place() + usize::from(self.condition % CONDITIONS)
    }
}

/// How many transactions ended, by role, class and condition. Contracts see the list of counts.
#[derive(Drop)]
pub struct EndedCounts {
    counts: Vec<u64>,
}

impl Model for EndedCounts {
    ghost use Rattle.std.specs.Prelude.{◌≡◌, ℕ, List, length};

    ghost Value = { List ℕ };

    ghost view = { λ c. c.counts.items };

    ghost invariant = { λ c. length c.counts.items ≡ 96 };
}

impl EndedCounts {
    /// All counts at 0.
    pub fn new(alloc: Global) -> Result<EndedCounts, AllocError>
        ensures { IfOk result (λ counts. counts ≡ replicate 96 0) }
    {
        Ok(EndedCounts {
            counts: Vec::from_elem(alloc, 0u64, COUNTS)?,
        })
    }

    /// Counts a transaction that ended. No count grows above 64 bits.
    pub fn note(&mut self, ended: Ended)
        ensures { self.new ≡ noted ended self.old }
    {
        let place = ended.place();
        let count = self.counts[place];
        self.counts[place] = count.saturating_add(1);
    }

    /// How many ended like this.
    pub fn count(&self, ended: Ended) -> u64
        ensures { result ≡ count_of ended self.now }
    {
        self.counts[ended.place()]
    }
}
