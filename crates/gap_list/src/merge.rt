//! Rising runs and ranges, merged into new runs.
ghost use Rattle.std.specs.Prelude.{◌≡◌, IfOk, OnOk};
ghost use Rattle.gap_list.specs.Runs.{in_runs, with_range, with_ranges, without_range, SameSet, IsRisingFrom};

use crate::edit::add;
use crate::run::Run;
use crate::slices::{begun_by, end_from, ended_below, last_end};
use std::alloc::{AllocError, Global};

// Adds a range unless it is empty.
fn put(merged: &mut Vec<Run>, range: Run) -> Result<(), AllocError>
    requires { IsRisingFrom 0 merged.old.items }
    ensures rising { OnOk result (IsRisingFrom 0 merged.new.items) }
    ensures added { OnOk result (SameSet (in_runs merged.new.items) (with_range (in_runs merged.old.items) range.start range.end)) }
{
    if range.start < range.end {
        merged.reserve(1)?;
        add(merged, range.start, range.end);
    }
    Ok(())
}

// Adds rising runs. Those that begin behind the last run there are copied at once.
fn append(merged: &mut Vec<Run>, runs: &[Run]) -> Result<(), AllocError>
    requires merged { IsRisingFrom 0 merged.old.items }
    requires runs { IsRisingFrom 0 runs.now }
    ensures rising { OnOk result (IsRisingFrom 0 merged.new.items) }
    ensures added { OnOk result (SameSet (in_runs merged.new.items) (with_ranges (in_runs merged.old.items) runs.now)) }
{
    let mut place = 0;
    while place < runs.len() && runs[place].start <= last_end(merged.as_slice()) {
        put(merged, runs[place])?;
        place += 1;
    }
    merged.extend_from_slice(&runs[place..])?;
    Ok(())
}

/// The runs from the offset `from` on, merged with the ranges. Ranges that begin in rising order cost one pass.
pub fn merged(
    alloc: Global,
    runs: &[Run],
    from: u32,
    ranges: &[Run],
) -> Result<Vec<Run>, AllocError>
    requires { IsRisingFrom 0 runs.now }
    ensures rising { IfOk result (λ merged. IsRisingFrom 0 merged.items) }
    ensures merged { IfOk result (λ merged. SameSet (in_runs merged.items) (with_ranges (without_range (in_runs runs.now) 0 from) ranges.now)) }
{
    let mut merged = Vec::with_capacity(alloc, runs.len() + ranges.len())?;
    let reached = end_from(runs, from);
    put(
        &mut merged,
        Run {
            start: from,
            end: reached,
        },
    )?;
    let mut place = begun_by(runs, from);
    for range in ranges {
        let next = ended_below(runs, range.start).max(place);
        append(&mut merged, &runs[place..next])?;
        put(&mut merged, *range)?;
        place = next;
    }
    append(&mut merged, &runs[place..])?;
    Ok(merged)
}
