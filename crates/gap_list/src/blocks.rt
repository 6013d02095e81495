//! Rising runs in blocks, so that a run inserted below many others moves only those of its block.
ghost use Rattle.std.specs.Prelude.{◌≡◌, ℕ, ◌+◌, ◌-◌, ◌<◌, ◌≤◌, ◌++◌, ◌∷◌, [], IfOk, OnOk, All, length, take, drop, nat_lt, vec_len, vec_capacity};
ghost use Rattle.std.specs.List.{insert};
ghost use Rattle.gap_list.specs.Runs.{in_runs, with_range, SameSet, IsRisingFrom};
ghost use Rattle.gap_list.specs.Places.{last_end};
ghost use Rattle.gap_list.specs.Blocks.{all_runs, blocks_of, first_of, index_of, place_of, runs_at, spare, IsKept, IsSpot};

use crate::run::Run;
use crate::search::{end_at, start_at};
use crate::{edit, slices};
use std::alloc::AllocError;
use std::mem;

// A block with so many runs is split before it gets another.
const LONG: usize = 256;

// For how many more runs the upper part of a split block has room.
const SPARE: usize = 16;

/// Rising runs that don't touch.
#[derive(Debug, Drop)]
pub struct Blocks {
    /// The blocks below the top one, from the lowest up. None is empty.
    pub below: Vec<Vec<Run>>,
    /// The highest runs.
    pub top: Vec<Run>,
    /// The number of the block that was changed last. Every other block has room for one more run.
    pub changed: usize,
    /// For so many more runs every block has room.
    pub room: usize,
}

/// The place of a run.
#[derive(Clone, Copy)]
pub struct Spot {
    /// The number of its block.
    pub block: usize,
    /// How many runs are before it in the block.
    pub place: usize,
}

// Whether all runs of a block end below the offset.
fn ends_below(block: &Vec<Run>, offset: u32) -> bool
    ensures { result ≡ nat_lt (last_end 0 block.now.items) offset }
{
    slices::last_end(block.as_slice()) < offset
}

impl Blocks {
    /// One block.
    pub fn of(top: Vec<Run>) -> Blocks
        ensures runs { all_runs result ≡ top.items }
        ensures kept { IsKept result }
        ensures room { result.room ≡ vec_capacity top - vec_len top }
    {
        Blocks {
            below: Vec::new(*top.allocator()),
            room: top.capacity() - top.len(),
            top,
            changed: 0,
        }
    }

    // The runs of a block.
    fn block(&self, number: usize) -> &[Run]
        requires { number ≤ length self.now.below.items }
        ensures { result.now ≡ runs_at (blocks_of self.now) number }
    {
        if number < self.below.len() {
            self.below[number].as_slice()
        } else {
            self.top.as_slice()
        }
    }

    // The number of the first block that has a run that doesn't end below the offset, or that of the top block.
    fn block_from(&self, offset: u32) -> usize
        requires rising { IsRisingFrom 0 (all_runs self.now) }
        requires kept { IsKept self.now }
        ensures within { result ≤ length self.now.below.items }
        ensures below { All (λ block. last_end 0 block.items < offset) (take result self.now.below.items) }
        ensures above { All (λ block. offset ≤ last_end 0 block.items) (drop result self.now.below.items) }
    {
        self.below.partition_point(
            |block: &Vec<Run>| -> bool
                ensures { result ≡ nat_lt (last_end 0 block.now.items) offset }
            { ends_below(block, offset) },
        )
    }

    /// The place of the first run that doesn't end below the offset.
    pub fn ended_below(&self, offset: u32) -> Spot
        requires rising { IsRisingFrom 0 (all_runs self.now) }
        requires kept { IsKept self.now }
        ensures spot { IsSpot self.now result }
        ensures below { All (λ run. run.end < offset) (take (index_of self.now result) (all_runs self.now)) }
        ensures above { All (λ run. offset ≤ run.end) (drop (index_of self.now result) (all_runs self.now)) }
    {
        let block = self.block_from(offset);
        Spot {
            block,
            place: slices::ended_below(self.block(block), offset),
        }
    }

    /// The run at a place; none behind the last run.
    pub fn get(&self, spot: Spot) -> Option<Run>
        requires { IsSpot self.now spot }
        ensures { result ≡ first_of (drop (index_of self.now spot) (all_runs self.now)) }
    {
        let runs = self.block(spot.block);
        if spot.place < runs.len() {
            Some(runs[spot.place])
        } else {
            None
        }
    }

    /// The place after this one.
    pub fn after(&self, spot: Spot) -> Spot
        requires spot { IsSpot self.now spot }
        requires present { index_of self.now spot < length (all_runs self.now) }
        requires kept { IsKept self.now }
        ensures spot { IsSpot self.now result }
        ensures next { index_of self.now result ≡ index_of self.now spot + 1 }
    {
        let len = self.block(spot.block).len();
        if spot.block == self.below.len() {
            Spot {
                block: spot.block,
                place: spot.place + 1,
            }
        } else if spot.place + 1 < len {
            Spot {
                block: spot.block,
                place: spot.place + 1,
            }
        } else {
            Spot {
                block: spot.block + 1,
                place: 0,
            }
        }
    }

    // Replaces the runs of a block from place `first` to place `last` - 1 by one run.
    fn put_in(&mut self, number: usize, first: usize, last: usize, run: Run)
        requires kept { IsKept self.old }
        requires number { number ≤ length self.old.below.items }
        requires ordered { first ≤ last }
        requires within { last ≤ length (runs_at (blocks_of self.old) number) }
        requires room { 0 < self.old.room }
        ensures runs { all_runs self.new ≡ take (place_of (blocks_of self.old) number first) (all_runs self.old)
            ++ run ∷ drop (place_of (blocks_of self.old) number last) (all_runs self.old) }
        ensures kept { IsKept self.new }
        ensures room { self.new.room + 1 ≡ self.old.room }
    {
        self.changed = number;
        self.room -= 1;
        if number < self.below.len() {
            edit::put(&mut self.below[number], first, last, run);
        } else {
            edit::put(&mut self.top, first, last, run);
        }
    }

    // Removes the runs from a place up to a block. Returns that block's number then.
    fn cut(&mut self, first: Spot, until: usize) -> usize
        requires kept { IsKept self.old }
        requires room { 0 < self.old.room }
        requires spot { IsSpot self.old first }
        requires until { (first.block < until) × (until ≤ length self.old.below.items) }
        ensures runs { all_runs self.new ≡ take (index_of self.old first) (all_runs self.old)
            ++ drop (place_of (blocks_of self.old) until 0) (all_runs self.old) }
        ensures number { result ≤ length self.new.below.items }
        ensures place { place_of (blocks_of self.new) result 0 ≡ index_of self.old first }
        ensures block { runs_at (blocks_of self.new) result ≡ runs_at (blocks_of self.old) until }
        ensures kept { IsKept self.new }
        ensures room { self.new.room ≡ self.old.room }
    {
        self.changed = first.block;
        if first.place == 0 {
            self.below.drain(first.block..until);
            first.block
        } else {
            self.below[first.block].truncate(first.place);
            self.below.drain(first.block + 1..until);
            first.block + 1
        }
    }

    // Replaces the runs from one place to another by one run, without allocating.
    fn put(&mut self, first: Spot, last: Spot, run: Run)
        requires kept { IsKept self.old }
        requires first { IsSpot self.old first }
        requires last { IsSpot self.old last }
        requires ordered { index_of self.old first ≤ index_of self.old last }
        requires room { 0 < self.old.room }
        ensures runs { all_runs self.new ≡ take (index_of self.old first) (all_runs self.old)
            ++ run ∷ drop (index_of self.old last) (all_runs self.old) }
        ensures kept { IsKept self.new }
        ensures room { self.new.room + 1 ≡ self.old.room }
    {
        if first.block < last.block {
            let number = self.cut(first, last.block);
            self.put_in(number, 0, last.place, run);
        } else {
            self.put_in(first.block, first.place, last.place, run);
        }
    }

    // The place of the first run that begins above the offset, where the place is that of the first that doesn't end below it.
    fn begun_from(&self, spot: Spot, offset: u32) -> Spot
        requires rising { IsRisingFrom 0 (all_runs self.now) }
        requires kept { IsKept self.now }
        requires spot { IsSpot self.now spot }
        requires below { All (λ run. run.end < offset) (take (index_of self.now spot) (all_runs self.now)) }
        requires above { All (λ run. offset ≤ run.end) (drop (index_of self.now spot) (all_runs self.now)) }
        ensures spot { IsSpot self.now result }
        ensures within { index_of self.now result ≤ length (all_runs self.now) }
        ensures next { index_of self.now spot ≤ index_of self.now result }
        ensures one { index_of self.now result ≤ index_of self.now spot + 1 }
        ensures below { All (λ run. run.start ≤ offset) (take (index_of self.now result) (all_runs self.now)) }
        ensures above { All (λ run. offset < run.start) (drop (index_of self.now result) (all_runs self.now)) }
    {
        match self.get(spot) {
            None => spot,
            Some(run) => {
                if run.start <= offset {
                    self.after(spot)
                } else {
                    spot
                }
            }
        }
    }

    // Adds a range, merging it with the runs that it touches, in whatever blocks these are.
    fn add_among(&mut self, start: u32, end: u32)
        requires filled { start < end }
        requires rising { IsRisingFrom 0 (all_runs self.old) }
        requires kept { IsKept self.old }
        requires room { 0 < self.old.room }
        ensures rising { IsRisingFrom 0 (all_runs self.new) }
        ensures kept { IsKept self.new }
        ensures added { SameSet (in_runs (all_runs self.new)) (with_range (in_runs (all_runs self.old)) start end) }
        ensures room { self.new.room + 1 ≡ self.old.room }
    {
        let first = self.ended_below(start);
        let last = self.ended_below(end);
        let joined = Run {
            start: start_at(self, first, start),
            end: end_at(self, last, end),
        };
        let last = self.begun_from(last, end);
        self.put(first, last, joined);
    }

    // Adds a range to the only block.
    fn add_to_top(&mut self, start: u32, end: u32)
        requires one { length self.old.below.items ≡ 0 }
        requires filled { start < end }
        requires rising { IsRisingFrom 0 (all_runs self.old) }
        requires kept { IsKept self.old }
        requires room { 0 < self.old.room }
        ensures rising { IsRisingFrom 0 (all_runs self.new) }
        ensures kept { IsKept self.new }
        ensures added { SameSet (in_runs (all_runs self.new)) (with_range (in_runs (all_runs self.old)) start end) }
        ensures room { self.new.room + 1 ≡ self.old.room }
    {
        self.changed = 0;
        self.room -= 1;
        edit::add(&mut self.top, start, end);
    }

    /// Adds a range, merging it with the runs that it touches, without allocating.
    pub fn add(&mut self, start: u32, end: u32)
        requires filled { start < end }
        requires rising { IsRisingFrom 0 (all_runs self.old) }
        requires kept { IsKept self.old }
        requires room { 0 < self.old.room }
        ensures rising { IsRisingFrom 0 (all_runs self.new) }
        ensures kept { IsKept self.new }
        ensures added { SameSet (in_runs (all_runs self.new)) (with_range (in_runs (all_runs self.old)) start end) }
        ensures room { self.new.room + 1 ≡ self.old.room }
    {
        if self.below.is_empty() {
            self.add_to_top(start, end);
        } else {
            self.add_among(start, end);
        }
    }

    // Splits a block below the top one.
    fn split_below(&mut self, number: usize) -> Result<(), AllocError>
        requires number { number < length self.old.below.items }
        requires changed { self.old.changed ≡ number }
        requires long { 1 < length (runs_at (blocks_of self.old) number) }
        requires kept { IsKept self.old }
        requires room { self.old.room ≡ 0 }
        ensures runs { all_runs self.new ≡ all_runs self.old }
        ensures kept { IsKept self.new }
        ensures spare { OnOk result (All (λ block. 0 < spare block) (blocks_of self.new)) }
        ensures room { self.new.room ≡ 0 }
    {
        let kept = self.below[number].len() / 2;
        let upper = upper_part(&self.below[number], kept)?;
        self.below.reserve(1)?;
        self.below[number].truncate(kept);
        insert_block(&mut self.below, number + 1, upper);
        Ok(())
    }

    // Splits the top block. Most of its runs stay together, since a file's octets mostly come in rising order.
    fn split_top(&mut self) -> Result<(), AllocError>
        requires changed { self.old.changed ≡ length self.old.below.items }
        requires long { 7 < length self.old.top.items }
        requires kept { IsKept self.old }
        requires room { self.old.room ≡ 0 }
        ensures runs { all_runs self.new ≡ all_runs self.old }
        ensures kept { IsKept self.new }
        ensures spare { OnOk result (All (λ block. 0 < spare block) (blocks_of self.new)) }
        ensures room { self.new.room ≡ 0 }
    {
        let kept = self.top.len() - self.top.len() / 8;
        let upper = upper_part(&self.top, kept)?;
        self.below.reserve(1)?;
        self.top.truncate(kept);
        let lower = mem::replace(&mut self.top, upper);
        let place = self.below.len();
        insert_block(&mut self.below, place, lower);
        Ok(())
    }

    // Makes room for one more run in the block that was changed last, and splits it first if it is long.
    fn widen(&mut self) -> Result<(), AllocError>
        requires kept { IsKept self.old }
        requires room { self.old.room ≡ 0 }
        ensures runs { all_runs self.new ≡ all_runs self.old }
        ensures kept { IsKept self.new }
        ensures spare { OnOk result (All (λ block. 0 < spare block) (blocks_of self.new)) }
        ensures room { self.new.room ≡ 0 }
    {
        if self.changed < self.below.len() {
            if self.below[self.changed].len() < LONG {
                self.below[self.changed].reserve(1)
            } else {
                self.split_below(self.changed)
            }
        } else if self.top.len() < LONG {
            self.top.reserve(1)
        } else {
            self.split_top()
        }
    }

    // Makes one block with room for `count` more runs.
    fn gather(&mut self, count: usize) -> Result<(), AllocError>
        requires kept { IsKept self.old }
        requires room { self.old.room < count }
        ensures runs { all_runs self.new ≡ all_runs self.old }
        ensures kept { IsKept self.new }
        ensures spare { OnOk result (All (λ block. count ≤ spare block) (blocks_of self.new)) }
        ensures room { self.new.room ≡ self.old.room }
    {
        if self.below.is_empty() {
            return self.top.reserve(count);
        }
        let mut all = self.all()?;
        all.reserve(count)?;
        self.below.clear();
        self.top = all;
        self.changed = 0;
        Ok(())
    }

    /// Makes room for `count` more runs.
    pub fn reserve(&mut self, count: usize) -> Result<(), AllocError>
        requires { IsKept self.old }
        ensures runs { all_runs self.new ≡ all_runs self.old }
        ensures kept { IsKept self.new }
        ensures room { OnOk result (count ≤ self.new.room) }
        ensures stays { self.old.room ≤ self.new.room }
    {
        if self.room < count {
            if count == 1 {
                self.widen()?;
            } else {
                self.gather(count)?;
            }
            self.room = count;
        }
        Ok(())
    }

    /// All runs in one vector.
    pub fn all(&self) -> Result<Vec<Run>, AllocError>
        ensures { IfOk result (λ runs. runs.items ≡ all_runs self.now) }
    {
        let mut runs = Vec::with_capacity(*self.top.allocator(), self.top.len())?;
        for block in &self.below {
            runs.extend_from_slice(block.as_slice())?;
        }
        runs.extend_from_slice(self.top.as_slice())?;
        Ok(runs)
    }
}

// Inserts a block, without allocating.
fn insert_block(blocks: &mut Vec<Vec<Run>>, place: usize, block: Vec<Run>)
    requires within { place ≤ vec_len blocks.old }
    requires room { vec_len blocks.old < vec_capacity blocks.old }
    ensures { blocks.new.items ≡ insert blocks.old.items place block }
{
    let inserted = blocks.insert(place, block);
    inserted.unwrap()
}

// A copy of the runs from a place on, with room for more.
fn upper_part(runs: &Vec<Run>, from: usize) -> Result<Vec<Run>, AllocError>
    requires { from ≤ vec_len runs.now }
    ensures items { IfOk result (λ upper. upper.items ≡ drop from runs.now.items) }
    ensures spare { IfOk result (λ upper. 0 < spare upper) }
{
    let mut upper = Vec::with_capacity(*runs.allocator(), runs.len() - from + SPARE)?;
    upper.extend_from_slice(&runs[from..])?;
    Ok(upper)
}
