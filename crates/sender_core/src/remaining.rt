ghost use Rattle.std.specs.Prelude.{◌≡◌, ℕ, ◌&&◌, min, nat_lt, IfOk};
ghost use Rattle.std.specs.List.{list_any};
ghost use Rattle.gap_list.specs.Runs.{in_runs};
ghost use Rattle.sender_table.specs.Sending.{asks_for};

use gap_list::{Gaps, Run};
use pdu_values::SegmentRequest;
use std::alloc::{AllocError, Global};

/// The offsets of a file that remain to be sent.
#[derive(Drop)]
pub(crate) struct Remaining {
    offsets: Gaps,
    // Offsets below it don't remain to be sent.
    start: u32,
}

impl Remaining {
    ghost use Rattle.std.specs.Prelude.{◌≡◌, ℕ, IfOk, nat_lt};
    ghost use Rattle.gap_list.specs.Runs.{SameSet, without_range, first_run};
    ghost use Rattle.sender_core.specs.Remaining.{to_send, with_requests};

    /// All offsets of a file of this size.
    pub(crate) fn whole(alloc: Global, size: u32) -> Result<Remaining, AllocError>
        ensures { IfOk result (λ remaining. (i : ℕ) → to_send remaining i ≡ nat_lt i size) }
    {
        let mut offsets = Gaps::with_room(alloc, 1)?;
        offsets.add(0, size);
        Ok(Remaining { offsets, start: 0 })
    }

    /// The lowest run below the limit.
    pub(crate) fn first(&self, limit: u32) -> Option<Run>
        ensures { result ≡ first_run (to_send self.now) limit }
    {
        self.offsets.first_from(self.start, limit)
    }

    /// Removes the offsets below `end`.
    pub(crate) fn send_to(&mut self, end: u32)
        ensures { SameSet (to_send self.new) (without_range (to_send self.old) 0 end) }
    {
        self.start = self.start.max(end);
    }

    /// What remains with the requested offsets below the limit. It costs one pass over the runs and the requests,
    /// in whatever order these are.
    pub(crate) fn with_requests(
        &self,
        alloc: Global,
        requests: &[SegmentRequest],
        limit: u32,
    ) -> Result<Remaining, AllocError>
        ensures { IfOk result (λ remaining. (i : ℕ) → to_send remaining i
            ≡ with_requests (to_send self.now) requests.now limit i) }
    {
        let ranges = rising_ranges(alloc, requests, limit)?;
        Ok(Remaining {
            offsets: self.offsets.merged(self.start, ranges.as_slice())?,
            start: 0,
        })
    }
}

// The requested offsets below the limit, as ranges that begin in rising order.
fn rising_ranges(
    alloc: Global,
    requests: &[SegmentRequest],
    limit: u32,
) -> Result<Vec<Run>, AllocError>
    ensures { IfOk result (λ ranges. (i : ℕ) → in_runs ranges.items i ≡ (nat_lt i limit && list_any (asks_for i) requests.now)) }
{
    let mut ranges = Vec::with_capacity(alloc, requests.len())?;
    for request in requests {
        ranges.push(range_below(*request, limit))?;
    }
    ranges.sort_by_key(|range| range.start)?;
    Ok(ranges)
}

// The requested offsets below the limit.
fn range_below(request: SegmentRequest, limit: u32) -> Run
    ensures { result ≡ record { start = min request.start limit; end = min request.end limit } }
{
    Run {
        start: request.start.min(u64::from(limit)) as u32,
        end: request.end.min(u64::from(limit)) as u32,
    }
}
