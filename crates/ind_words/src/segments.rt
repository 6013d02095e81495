//! The file segments reported so far, as a set of offsets in memory reserved beforehand.
ghost use Rattle.std.specs.Prelude.{◌≡◌, ℕ, ◌+◌, ◌<◌, ◌≤◌, ◌↔◌, true, false, IsTrue, IfOk};
ghost use Rattle.gap_list.specs.Covered.{covered};
ghost use Rattle.gap_list.specs.Runs.{SameSet, with_range, IsFree};
ghost use Rattle.ind_words.specs.Offsets.{IsInitial};

use gap_list::{Gaps, Run};
use std::alloc::{AllocError, Global};

#[derive(Drop)]
pub struct Segments {
    offsets: Gaps,
    // For how many more segments there is room.
    left: usize,
    ghost room: { left ≤ offsets.room },
}

impl Segments {
    /// No segments, with room for `room` of them.
    pub fn with_room(alloc: Global, room: usize) -> Result<Segments, AllocError>
        ensures room { IfOk result (λ s. s.left ≡ room) }
        ensures none { IfOk result (λ s. (i : ℕ) → covered s.offsets i ≡ false) }
    {
        Ok(Segments {
            offsets: Gaps::with_room(alloc, room)?,
            left: room,
        })
    }

    /// Accepts a segment that shares no offset with those before it, while there is room.
    pub fn take(&mut self, segment: Run) -> bool
        requires { segment.start < segment.end }
        ensures exact { IsTrue result
            ↔ ((0 < self.old.left) × IsFree (covered self.old.offsets) segment.start segment.end) }
        ensures room { result ≡ true → self.new.left + 1 ≡ self.old.left }
        ensures taken { result ≡ true
            → SameSet (covered self.new.offsets) (with_range (covered self.old.offsets) segment.start segment.end) }
        ensures left { result ≡ false → self.new ≡ self.old }
    {
        if self.left == 0 || !self.offsets.is_free(segment.start, segment.end) {
            return false;
        }
        self.left -= 1;
        self.offsets.add(segment.start, segment.end);
        true
    }

    /// Whether the segments are exactly the offsets below some size.
    pub fn is_initial(&self) -> bool
        ensures { IsTrue result ↔ IsInitial (covered self.now.offsets) }
    {
        self.offsets.is_full(self.offsets.extent())
    }
}
