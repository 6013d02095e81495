//! The file as it will be once a change is carried out.
use crate::file_change::FileChange;
use crate::received_file::ReceivedFile;
use gap_list::Runs;
use std::alloc::AllocError;

impl ReceivedFile {
    ghost use Rattle.std.specs.Prelude.{◌≡◌, IfOk, take};
    ghost use Rattle.gap_list.specs.Runs.{missing_runs};
    ghost use Rattle.receiver_parts.specs.Finding.{is_full};
    ghost use Rattle.receiver_parts.specs.FileChange.{covered_after, word_after};

    /// Whether no octet is missing below a size.
    pub fn is_full_after(&self, change: &FileChange, size: u32) -> bool
        ensures { result ≡ is_full (covered_after self.now change.now) size }
    {
        match change {
            FileChange::NewSegment(segment) => {
                self.gaps.is_full_with(segment.start, segment.end, size)
            }
            FileChange::Nothing | FileChange::Metadata(_) => self.gaps.is_full(size),
        }
    }

    /// The first `count` runs of missing offsets below a limit.
    pub fn missing_after(
        &self,
        change: &FileChange,
        limit: u32,
        count: usize,
    ) -> Result<Runs, AllocError>
        ensures { IfOk result (λ runs. runs.items ≡ take count (missing_runs (covered_after self.now change.now) limit)) }
    {
        match change {
            FileChange::NewSegment(segment) => {
                self.gaps
                    .missing_first_with(segment.start, segment.end, limit, count)
            }
            FileChange::Nothing | FileChange::Metadata(_) => self.gaps.missing_first(limit, count),
        }
    }

    /// The checksum of the received octets.
    pub fn checksum_after(&self, change: &FileChange) -> u32
        ensures { result ≡ word_after self.now change.now }
    {
        match change {
            FileChange::NewSegment(segment) => segment.sum.value(),
            FileChange::Nothing | FileChange::Metadata(_) => self.sum.value(),
        }
    }
}
