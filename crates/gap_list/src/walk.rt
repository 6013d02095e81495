//! The gaps between rising runs.
ghost use Rattle.std.specs.Prelude.{◌≡◌, ◌≤◌, ◌-◌, ◌++◌, OnOk, length, take, []};
ghost use Rattle.gap_list.specs.Blocks.{all_runs, IsKept};
ghost use Rattle.gap_list.specs.Places.{kept};
ghost use Rattle.gap_list.specs.Runs.{in_runs, new_runs, missing_runs, with_range, IsRisingFrom};

use crate::blocks::Blocks;
use crate::run::{Run, Runs};
use std::alloc::AllocError;

// Appends a run unless it is empty.
fn put(gaps: &mut Runs, run: Run) -> Result<(), AllocError>
    ensures { OnOk result (gaps.new.items ≡ gaps.old.items ++ kept run []) }
{
    if run.start < run.end {
        gaps.push(run)?;
    }
    Ok(())
}

// Appends the gaps among the offsets from `start` to `end` - 1, from the lowest up, until the list has `most`
// runs.
pub fn put_gaps(
    gaps: &mut Runs,
    runs: &Blocks,
    start: u32,
    end: u32,
    most: usize,
) -> Result<(), AllocError>
    requires rising { IsRisingFrom 0 (all_runs runs.now) }
    requires kept { IsKept runs.now }
    ensures { OnOk result (gaps.new.items
        ≡ gaps.old.items ++ take (most - length gaps.old.items) (new_runs (in_runs (all_runs runs.now)) start end)) }
{
    let mut spot = runs.ended_below(start);
    let mut offset = start;
    while offset < end && gaps.len() < most {
        let Some(run) = runs.get(spot) else {
            return put(gaps, Run { start: offset, end });
        };
        let gap = Run {
            start: offset,
            end: run.start.min(end),
        };
        put(gaps, gap)?;
        offset = run.end.max(offset);
        spot = runs.after(spot);
    }
    Ok(())
}

// Appends the first `most` runs of offsets below the limit that are neither in a run nor in the range.
pub fn put_gaps_with(
    gaps: &mut Runs,
    runs: &Blocks,
    range: Run,
    limit: u32,
    most: usize,
) -> Result<(), AllocError>
    requires ordered { range.start ≤ range.end }
    requires rising { IsRisingFrom 0 (all_runs runs.now) }
    requires kept { IsKept runs.now }
    requires empty { gaps.old.items ≡ [] }
    ensures { OnOk result (gaps.new.items
        ≡ take most (missing_runs (with_range (in_runs (all_runs runs.now)) range.start range.end) limit)) }
{
    if range.start == range.end {
        put_gaps(gaps, runs, 0, limit, most)?;
    } else {
        put_gaps(gaps, runs, 0, range.start.min(limit), most)?;
        put_gaps(gaps, runs, range.end, limit, most)?;
    }
    Ok(())
}
