ghost use Rattle.std.specs.Prelude.{◌≡◌};
ghost use Rattle.modular_sum.specs.Pieces.{sum_with};

use crate::words::with_row;
use std::marker::Model;

/// The modular checksum of a file whose pieces arrive in any order: each octet adds its value, weighted by its
/// offset, modulo 2^32. Contracts see the sum so far.
#[derive(Clone, Copy, Debug, PartialEq, Eq)]
pub struct Running {
    word: u32,
}

impl Model for Running {
    ghost use Rattle.std.specs.Prelude.{ℕ, ◌<◌, ◌^◌};

    ghost Value = { ℕ };

    ghost view = { λ r. r.word };

    ghost invariant = { λ r. r.word < 2 ^ 32 };

    ghost inverse = { λ n. record { word = n } };
}

impl Running {
    /// The sum before any octet was added: 0.
    pub fn new() -> Running
        ensures { result ≡ 0 }
    {
        Running { word: 0 }
    }

    /// Adds octets, the first of which is at `offset` in the file. An octet that is added twice counts twice.
    #[tactic(auto, using(crate::proofs::SumLemmas::total_from_place))]
    pub fn add(&mut self, offset: u32, octets: &[u8])
        ensures { self.new ≡ sum_with self.old offset octets.now }
    {
        self.word = with_row(self.word, offset as usize % 4, octets);
    }

    /// The sum so far.
    pub fn value(&self) -> u32
        ensures { result ≡ self.now }
    {
        self.word
    }
}
