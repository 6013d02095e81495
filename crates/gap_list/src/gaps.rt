use crate::blocks::Blocks;
use crate::run::{Run, Runs};
use crate::{merge, search, walk};
use std::alloc::{AllocError, Global};
use std::marker::Model;

/// The set of a file's covered offsets. Contracts see what is `covered`, and how many more runs there is room for.
///
/// It is kept as rising runs that don't touch, so a file that arrives in order costs one run.
#[derive(Debug, Drop)]
pub struct Gaps {
    runs: Blocks,
}

impl Model for Gaps {
    ghost use Rattle.gap_list.specs.Blocks.{all_runs, IsKept};
    ghost use Rattle.gap_list.specs.Covered.{GapsValue};
    ghost use Rattle.gap_list.specs.Runs.{IsRisingFrom};

    ghost Value = { GapsValue };

    ghost view = { λ g. record { runs = all_runs g.runs; room = g.runs.room } };

    ghost invariant = { λ g. IsRisingFrom 0 (all_runs g.runs) × IsKept g.runs };
}

#[tactic(auto, unfolding(crate::specs::Covered::covered))]
impl Gaps {
    ghost use Rattle.std.specs.Prelude.{◌≡◌, ◌↔◌, ℕ, ◌+◌, ◌<◌, ◌≤◌, false, take, IfOk, OnOk, OnErr, IsTrue};
    ghost use Rattle.gap_list.specs.Covered.{covered};
    ghost use Rattle.gap_list.specs.Runs.{SameSet, IsFree, with_range, with_ranges, without_range, new_runs, missing_runs, first_run, IsExtent};

    /// The empty set.
    pub fn new(alloc: Global) -> Gaps
        ensures { (offset : ℕ) → covered result offset ≡ false }
    {
        Gaps {
            runs: Blocks::of(Vec::new(alloc)),
        }
    }

    /// The empty set, with room for `count` runs.
    pub fn with_room(alloc: Global, count: usize) -> Result<Gaps, AllocError>
        ensures none { IfOk result (λ gaps. (offset : ℕ) → covered gaps offset ≡ false) }
        ensures room { IfOk result (λ gaps. count ≤ gaps.room) }
    {
        Ok(Gaps {
            runs: Blocks::of(Vec::with_capacity(alloc, count)?),
        })
    }

    /// Makes room for `count` more runs. Each `add` takes at most one.
    pub fn reserve(&mut self, count: usize) -> Result<(), AllocError>
        ensures same { SameSet (covered self.new) (covered self.old) }
        ensures room { OnOk result (count ≤ self.new.room) }
        ensures kept { self.old.room ≤ self.new.room }
    {
        self.runs.reserve(count)
    }

    /// Covers the offsets from `start` to `end` - 1, without allocating.
    pub fn add(&mut self, start: u32, end: u32)
        requires ordered { start ≤ end }
        requires room { 0 < self.old.room }
        ensures added { SameSet (covered self.new) (with_range (covered self.old) start end) }
        ensures room { self.old.room ≤ self.new.room + 1 }
    {
        if start < end {
            self.runs.add(start, end);
        }
    }

    /// Covers the offsets from `start` to `end` - 1. Returns the new ones as maximal runs, from the lowest up.
    pub fn cover(&mut self, start: u32, end: u32) -> Result<Runs, AllocError>
        requires { start ≤ end }
        ensures added { OnOk result
            (SameSet (covered self.new) (with_range (covered self.old) start end)) }
        ensures answer { IfOk result (λ runs. runs.items ≡ new_runs (covered self.old) start end) }
        ensures refused { OnErr result (SameSet (covered self.new) (covered self.old)) }
    {
        let new = self.new_within(start, end)?;
        self.reserve(1)?;
        self.add(start, end);
        Ok(new)
    }

    /// The offsets from `start` to `end` - 1 that aren't covered, as maximal runs from the lowest up.
    pub fn new_within(&self, start: u32, end: u32) -> Result<Runs, AllocError>
        ensures { IfOk result (λ runs. runs.items ≡ new_runs (covered self.now) start end) }
    {
        let mut new = Runs::new(*self.runs.top.allocator());
        walk::put_gaps(&mut new, &self.runs, start, end, end as usize)?;
        Ok(new)
    }

    /// Whether none of the offsets from `start` to `end` - 1 is covered.
    pub fn is_free(&self, start: u32, end: u32) -> bool
        ensures { IsTrue result ↔ IsFree (covered self.now) start end }
    {
        start >= end || search::is_free(&self.runs, start, end)
    }

    /// The offsets below the limit that aren't covered, as maximal runs from the lowest up.
    pub fn missing(&self, limit: u32) -> Result<Runs, AllocError>
        ensures { IfOk result (λ runs. runs.items ≡ missing_runs (covered self.now) limit) }
    {
        self.missing_first(limit, limit as usize)
    }

    /// The first `count` of the runs that `missing` gives.
    pub fn missing_first(&self, limit: u32, count: usize) -> Result<Runs, AllocError>
        ensures { IfOk result (λ runs. runs.items ≡ take count (missing_runs (covered self.now) limit)) }
    {
        let mut missing = Runs::new(*self.runs.top.allocator());
        walk::put_gaps(&mut missing, &self.runs, 0, limit, count)?;
        Ok(missing)
    }

    /// The first `count` of the runs that `missing` would give once the offsets from `start` to `end` - 1 are
    /// covered.
    pub fn missing_first_with(
        &self,
        start: u32,
        end: u32,
        limit: u32,
        count: usize,
    ) -> Result<Runs, AllocError>
        requires { start ≤ end }
        ensures { IfOk result
            (λ runs. runs.items ≡ take count (missing_runs (with_range (covered self.now) start end) limit)) }
    {
        let mut missing = Runs::new(*self.runs.top.allocator());
        walk::put_gaps_with(&mut missing, &self.runs, Run { start, end }, limit, count)?;
        Ok(missing)
    }

    /// The lowest maximal run of covered offsets from `offset` up to the limit.
    pub fn first_from(&self, offset: u32, limit: u32) -> Option<Run>
        ensures { result ≡ first_run (without_range (covered self.now) 0 offset) limit }
    {
        search::first_run(&self.runs, offset, limit)
    }

    /// The set without the offsets below `from`, and with the ranges. Ranges that begin in rising order cost one pass.
    pub fn merged(&self, from: u32, ranges: &[Run]) -> Result<Gaps, AllocError>
        ensures { IfOk result (λ gaps. SameSet (covered gaps) (with_ranges (without_range (covered self.now) 0 from) ranges.now)) }
    {
        let all = self.runs.all()?;
        let merged = merge::merged(*all.allocator(), all.as_slice(), from, ranges)?;
        Ok(Gaps {
            runs: Blocks::of(merged),
        })
    }

    /// A copy of the set.
    pub fn copy(&self) -> Result<Gaps, AllocError>
        ensures { IfOk result (λ gaps. SameSet (covered gaps) (covered self.now)) }
    {
        Ok(Gaps {
            runs: Blocks::of(self.runs.all()?),
        })
    }

    /// Whether all offsets below the limit are covered.
    pub fn is_full(&self, limit: u32) -> bool
        ensures { IsTrue result ↔ ((offset : ℕ) → offset < limit → IsTrue (covered self.now offset)) }
    {
        limit <= search::end_from(&self.runs, 0)
    }

    /// Whether all offsets below the limit are covered once those from `start` to `end` - 1 are added.
    pub fn is_full_with(&self, start: u32, end: u32, limit: u32) -> bool
        ensures { IsTrue result ↔ ((offset : ℕ) → offset < limit → IsTrue (with_range (covered self.now) start end offset)) }
    {
        limit <= search::end_with(&self.runs, start, end)
    }

    /// One more than the greatest covered offset; 0 where nothing is covered.
    pub fn extent(&self) -> u32
        ensures { IsExtent (covered self.now) result }
    {
        search::greatest_end(&self.runs)
    }
}
