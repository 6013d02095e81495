//! Binary search: the place of an offset among rising runs.
ghost use Rattle.std.specs.Prelude.{◌≡◌, ℕ, ◌<◌, ◌≤◌, true, false, nat_le, nat_lt, length, take, drop, All};
ghost use Rattle.gap_list.specs.Runs.{in_runs, IsRisingFrom};
ghost use Rattle.gap_list.specs.Places.{end_or, last_end};

use crate::run::Run;

// The number of runs that end below the offset.
pub fn ended_below(runs: &[Run], offset: u32) -> usize
    requires { IsRisingFrom 0 runs.now }
    ensures within { result ≤ length runs.now }
    ensures below { All (λ run. run.end < offset) (take result runs.now) }
    ensures above { All (λ run. offset ≤ run.end) (drop result runs.now) }
{
    runs.partition_point(
        |run: &Run| -> bool
            ensures { result ≡ nat_lt run.now.end offset }
        { run.end < offset },
    )
}

// The number of runs that begin at or below the offset.
pub fn begun_by(runs: &[Run], offset: u32) -> usize
    requires { IsRisingFrom 0 runs.now }
    ensures within { result ≤ length runs.now }
    ensures below { All (λ run. run.start ≤ offset) (take result runs.now) }
    ensures above { All (λ run. offset < run.start) (drop result runs.now) }
{
    runs.partition_point(
        |run: &Run| -> bool
            ensures { result ≡ nat_le run.now.start offset }
        { run.start <= offset },
    )
}

// The end of the run at a place if it begins at or below the offset, else the offset.
fn end_at(runs: &[Run], place: usize, offset: u32) -> u32
    ensures { result ≡ end_or offset (drop place runs.now) }
{
    match runs.get(place) {
        None => offset,
        Some(run) => { if run.start <= offset { run.end } else { offset } }
    }
}

// The first offset from this one on that is in no run.
pub fn end_from(runs: &[Run], offset: u32) -> u32
    requires { IsRisingFrom 0 runs.now }
    ensures at_or_after { offset ≤ result }
    ensures covered { (i : ℕ) → offset ≤ i → i < result → in_runs runs.now i ≡ true }
    ensures stops { in_runs runs.now result ≡ false }
{
    end_at(runs, ended_below(runs, offset), offset)
}

// The end of the last run; 0 where there are none.
pub fn last_end(runs: &[Run]) -> u32
    ensures { result ≡ last_end 0 runs.now }
{
    match runs.last() {
        None => 0,
        Some(run) => run.end,
    }
}
