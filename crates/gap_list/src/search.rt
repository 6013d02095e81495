//! What lies at an offset among rising runs in blocks.
ghost use Rattle.std.specs.Prelude.{◌≡◌, ◌↔◌, ℕ, ◌<◌, ◌≤◌, true, false, IsTrue, All, drop, length};
ghost use Rattle.gap_list.specs.Runs.{in_runs, with_range, without_range, first_run, IsFree, IsExtent, IsRisingFrom};
ghost use Rattle.gap_list.specs.Places.{end_or, start_or, begins_from, last_end};
ghost use Rattle.gap_list.specs.Blocks.{all_runs, in_order, index_of, IsKept, IsSpot};

use crate::blocks::{Blocks, Spot};
use crate::run::Run;
use crate::slices;

// The end of the run at a place if it begins at or below the offset, else the offset.
pub fn end_at(runs: &Blocks, spot: Spot, offset: u32) -> u32
    requires { IsSpot runs.now spot }
    ensures { result ≡ end_or offset (drop (index_of runs.now spot) (all_runs runs.now)) }
{
    match runs.get(spot) {
        None => offset,
        Some(run) => { if run.start <= offset { run.end } else { offset } }
    }
}

// The start of the run at a place, but at most the limit.
pub fn start_at(runs: &Blocks, spot: Spot, limit: u32) -> u32
    requires { IsSpot runs.now spot }
    ensures { result ≡ start_or limit (drop (index_of runs.now spot) (all_runs runs.now)) }
{
    match runs.get(spot) {
        None => limit,
        Some(run) => run.start.min(limit),
    }
}

// Whether the run at a place begins at or above the offset; true where there is no such run.
fn begins_at(runs: &Blocks, spot: Spot, offset: u32) -> bool
    requires { IsSpot runs.now spot }
    ensures { result ≡ begins_from offset (drop (index_of runs.now spot) (all_runs runs.now)) }
{
    match runs.get(spot) {
        None => true,
        Some(run) => offset <= run.start,
    }
}

// The first offset from this one on that is in no run.
pub fn end_from(runs: &Blocks, offset: u32) -> u32
    requires rising { IsRisingFrom 0 (all_runs runs.now) }
    requires kept { IsKept runs.now }
    ensures at_or_after { offset ≤ result }
    ensures covered { (i : ℕ) → offset ≤ i → i < result → in_runs (all_runs runs.now) i ≡ true }
    ensures stops { in_runs (all_runs runs.now) result ≡ false }
{
    end_at(runs, runs.ended_below(offset), offset)
}

// The first offset above this one that is in a run, but at most the limit.
pub fn gap_end(runs: &Blocks, offset: u32, limit: u32) -> u32
    requires rising { IsRisingFrom 0 (all_runs runs.now) }
    requires kept { IsKept runs.now }
    requires gap { (offset < limit) × (in_runs (all_runs runs.now) offset ≡ false) }
    ensures after { offset < result }
    ensures within { result ≤ limit }
    ensures missing { (i : ℕ) → offset ≤ i → i < result → in_runs (all_runs runs.now) i ≡ false }
    ensures stops { result < limit → in_runs (all_runs runs.now) result ≡ true }
{
    start_at(runs, runs.ended_below(offset + 1), limit)
}

// The first offset that is neither in a run nor in the range from `start` to `end` - 1.
pub fn end_with(runs: &Blocks, start: u32, end: u32) -> u32
    requires rising { IsRisingFrom 0 (all_runs runs.now) }
    requires kept { IsKept runs.now }
    ensures covered { (i : ℕ) → i < result → with_range (in_runs (all_runs runs.now)) start end i ≡ true }
    ensures stops { with_range (in_runs (all_runs runs.now)) start end result ≡ false }
{
    let reached = end_from(runs, 0);
    if start <= reached {
        end_from(runs, end.max(reached))
    } else {
        reached
    }
}

// The first offset from this one on that is in a run, or one at or above the limit.
fn begin_from(runs: &Blocks, offset: u32, limit: u32) -> u32
    requires rising { IsRisingFrom 0 (all_runs runs.now) }
    requires kept { IsKept runs.now }
    ensures at_or_after { offset ≤ result }
    ensures missing { (i : ℕ) → offset ≤ i → i < result → in_runs (all_runs runs.now) i ≡ false }
    ensures stops { result < limit → in_runs (all_runs runs.now) result ≡ true }
{
    if offset < limit && end_from(runs, offset) == offset {
        gap_end(runs, offset, limit)
    } else {
        offset
    }
}

// The lowest maximal run of covered offsets from `offset` up to the limit.
pub fn first_run(runs: &Blocks, offset: u32, limit: u32) -> Option<Run>
    requires rising { IsRisingFrom 0 (all_runs runs.now) }
    requires kept { IsKept runs.now }
    ensures { result ≡ first_run (without_range (in_runs (all_runs runs.now)) 0 offset) limit }
{
    let start = begin_from(runs, offset, limit);
    if start < limit {
        Some(Run {
            start,
            end: end_from(runs, start).min(limit),
        })
    } else {
        None
    }
}

// Whether no run has an offset from `start` to `end` - 1.
pub fn is_free(runs: &Blocks, start: u32, end: u32) -> bool
    requires rising { IsRisingFrom 0 (all_runs runs.now) }
    requires kept { IsKept runs.now }
    requires filled { start < end }
    ensures { IsTrue result ↔ IsFree (in_runs (all_runs runs.now)) start end }
{
    begins_at(runs, runs.ended_below(start + 1), end)
}

// The end of the last run of the blocks below the top one; 0 where there are none.
fn end_below(blocks: &[Vec<Run>]) -> u32
    requires { All (λ block. 0 < length block.items) blocks.now }
    ensures { result ≡ last_end 0 (in_order blocks.now) }
{
    if blocks.is_empty() {
        0
    } else {
        slices::last_end(blocks[blocks.len() - 1].as_slice())
    }
}

// One more than the greatest offset in the runs; 0 where there are none.
pub fn greatest_end(runs: &Blocks) -> u32
    requires rising { IsRisingFrom 0 (all_runs runs.now) }
    requires kept { IsKept runs.now }
    ensures { IsExtent (in_runs (all_runs runs.now)) result }
{
    if runs.top.is_empty() {
        end_below(runs.below.as_slice())
    } else {
        slices::last_end(runs.top.as_slice())
    }
}
