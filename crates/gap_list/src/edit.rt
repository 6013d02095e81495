//! Adding ranges and runs to a vector of rising runs, in memory reserved beforehand.
ghost use Rattle.std.specs.Prelude.{◌≡◌, ℕ, ◌+◌, ◌<◌, ◌≤◌, ◌++◌, ◌∷◌, take, drop, vec_len, vec_capacity};
ghost use Rattle.std.specs.List.{insert};
ghost use Rattle.gap_list.specs.Runs.{in_runs, with_range, SameSet, IsRisingFrom};

use crate::run::Run;
use crate::slices::{begun_by, ended_below};

// Removes the runs from place `first` to place `last` - 1.
fn cut(runs: &mut Vec<Run>, first: usize, last: usize)
    requires ordered { first ≤ last }
    requires within { last ≤ vec_len runs.old }
    ensures items { runs.new.items ≡ take first runs.old.items ++ drop last runs.old.items }
    ensures len { vec_len runs.new + last ≡ vec_len runs.old + first }
    ensures room { vec_capacity runs.new ≡ vec_capacity runs.old }
{
    let len = runs.len();
    runs.copy_within(last..len, first);
    runs.truncate(first + (len - last));
}

// Replaces the runs from place `first` to place `last` - 1 by one run.
fn replace(runs: &mut Vec<Run>, first: usize, last: usize, run: Run)
    requires ordered { first < last }
    requires within { last ≤ vec_len runs.old }
    ensures items { runs.new.items ≡ take first runs.old.items ++ run ∷ drop last runs.old.items }
    ensures len { vec_len runs.new ≤ vec_len runs.old }
    ensures room { vec_capacity runs.new ≡ vec_capacity runs.old }
{
    runs[first] = run;
    cut(runs, first + 1, last);
}

// Inserts a run at a place, without allocating.
fn insert_run(runs: &mut Vec<Run>, place: usize, run: Run)
    requires within { place ≤ vec_len runs.old }
    requires room { vec_len runs.old < vec_capacity runs.old }
    ensures items { runs.new.items ≡ insert runs.old.items place run }
    ensures len { vec_len runs.new ≡ vec_len runs.old + 1 }
    ensures room { vec_capacity runs.new ≡ vec_capacity runs.old }
{
    let inserted = runs.insert(place, run);
    inserted.unwrap()
}

// Adds a range, merging it with the runs that it touches.
pub fn add(runs: &mut Vec<Run>, start: u32, end: u32)
    requires filled { start < end }
    requires rising { IsRisingFrom 0 runs.old.items }
    requires room { vec_len runs.old < vec_capacity runs.old }
    ensures rising { IsRisingFrom 0 runs.new.items }
    ensures added { SameSet (in_runs runs.new.items) (with_range (in_runs runs.old.items) start end) }
    ensures room { (vec_len runs.new ≤ vec_len runs.old + 1) × (vec_capacity runs.new ≡ vec_capacity runs.old) }
{
    let first = ended_below(runs.as_slice(), start);
    let last = begun_by(runs.as_slice(), end);
    if first < last {
        let joined = Run {
            start: runs[first].start.min(start),
            end: runs[last - 1].end.max(end),
        };
        replace(runs, first, last, joined);
    } else {
        insert_run(runs, first, Run { start, end });
    }
}

/// Replaces the runs from place `first` to place `last` - 1 by one run, without allocating.
pub fn put(runs: &mut Vec<Run>, first: usize, last: usize, run: Run)
    requires ordered { first ≤ last }
    requires within { last ≤ vec_len runs.old }
    requires room { vec_len runs.old < vec_capacity runs.old }
    ensures items { runs.new.items ≡ take first runs.old.items ++ run ∷ drop last runs.old.items }
    ensures len { vec_len runs.new ≤ vec_len runs.old + 1 }
    ensures room { vec_capacity runs.new ≡ vec_capacity runs.old }
{
    if first < last {
        replace(runs, first, last, run);
    } else {
        insert_run(runs, first, run);
    }
}
