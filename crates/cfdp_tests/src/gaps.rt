use gap_list::{Gaps, Run};
use std::alloc::{AllocError, Global};
use std::test::*;

// The offsets that are new where 2 to 9 are added.
const ADDED: [Run; 1] = [Run { start: 4, end: 8 }];

// Whether these are new, and 12 is then all that is missing below 13.
fn adds(gaps: &mut Gaps) -> Result<bool, AllocError> {
    let added = gaps.cover(2, 10)?;
    let missing = gaps.missing(13)?;
    Ok(
        added.as_slice() == ADDED.as_slice()
            && missing.as_slice() == [Run { start: 12, end: 13 }].as_slice(),
    )
}

fn cover_two_ranges(gaps: &mut Gaps) -> Result<(), AllocError> {
    let _first = gaps.cover(0, 4)?;
    let _second = gaps.cover(8, 12)?;
    Ok(())
}

// What is added to a set is not in a copy that was made before.
fn add_to_both(alloc: Global) -> Result<bool, AllocError> {
    let mut gaps = Gaps::new(alloc);
    cover_two_ranges(&mut gaps)?;
    let mut copy = gaps.copy()?;
    Ok(adds(&mut gaps)? && adds(&mut copy)?)
}

// Ranges that join or overlap what lies from an offset on.
fn merge_two_ranges(alloc: Global) -> Result<bool, AllocError> {
    let mut gaps = Gaps::new(alloc);
    cover_two_ranges(&mut gaps)?;
    let merged = gaps.merged(
        2,
        [Run { start: 4, end: 6 }, Run { start: 9, end: 13 }].as_slice(),
    )?;
    let missing = merged.missing(13)?;
    Ok(missing.as_slice() == [Run { start: 0, end: 2 }, Run { start: 6, end: 8 }].as_slice())
}

#[test]
fn ranges_merged_with_two_runs(rt: HostRuntime) -> Result<(), Fail> {
    assert!(rt; merge_two_ranges(rt.alloc())?);
    Ok(())
}

#[test]
fn range_over_two_runs(rt: HostRuntime) -> Result<(), Fail> {
    assert!(rt; add_to_both(rt.alloc())?);
    Ok(())
}
