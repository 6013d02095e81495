ghost use Rattle.std.specs.Prelude.{◌≡◌, IfOk};
ghost use Rattle.program_lineup.specs.Counts.{better_counts, divides, is_shared};

use std::alloc::{AllocError, Global};

/// The greatest number of sending lanes that [`better_counts`] looks at.
pub const MOST_COUNT: u64 = 64;

/// Whether two of so many sending lanes share one of so many receiving lanes, so that their files wait for each other.
/// All numbers of a sending lane have one remainder by the number of sending lanes. All numbers of a receiving lane
/// have one by the number of receiving lanes.
pub fn is_shared(senders: u64, lanes: u64) -> bool
    ensures { result ≡ is_shared senders lanes }
{
    lanes != 0 && senders != 0 && !divides(senders, lanes)
}

/// The numbers of sending lanes, up to [`MOST_COUNT`], for which each receiving lane gets the numbers of only one
/// sending lane; the least one first.
pub fn better_counts(alloc: Global, lanes: u64) -> Result<Vec<u64>, AllocError>
    ensures { IfOk result (λ counts. counts.items ≡ better_counts lanes) }
{
    (1..lanes.min(MOST_COUNT) + 1)
        .filter(
            |count: &u64| -> bool
                ensures { result ≡ divides count.now lanes }
            { divides(*count, lanes) },
        )
        .collect(alloc)
}

// Whether a number divides another.
fn divides(one: u64, other: u64) -> bool
    ensures { result ≡ divides one other }
{
    one != 0 && other % one == 0
}
