//! The received octets of a file.
ghost use Rattle.std.specs.Prelude.{◌≡◌, ℕ, ◌≤◌, is_some};
ghost use Rattle.gap_list.specs.Covered.{covered};
ghost use Rattle.modular_sum.specs.Pieces.{IsSumOf};
ghost use Rattle.receiver_parts.specs.Offsets.{octet_in};

use crate::pieces::{Piece, Pieces, append, parts_of, put_pieces, resize, sum_with_runs};
use gap_list::{Gaps, Run, Runs};
use modular_sum::Running;
use pdu_values::FileData;
use std::alloc::{AllocError, Global};

/// The received octets of a file: for each offset, the one received first.
#[derive(Drop)]
pub struct ReceivedFile {
    /// The octets, in the order in which they came. No two pieces share an offset.
    pub pieces: Vec<Piece>,
    /// Which offsets were received.
    pub gaps: Gaps,
    /// The checksum of the received octets, each at its offset.
    pub sum: Running,
    ghost came: { (i : ℕ) → is_some (octet_in pieces.items i) ≡ covered gaps i },
    ghost summed: { IsSumOf (octet_in pieces.items) sum },
}

/// What a segment of a file adds to the octets received before.
#[derive(Drop)]
pub struct NewSegment {
    /// The segment's first offset.
    pub start: u32,
    /// One more than the segment's last offset.
    pub end: u32,
    /// The offsets of the segment that were not received before.
    pub runs: Runs,
    /// The octets at these offsets.
    pub pieces: Pieces,
    /// The checksum once the octets at these offsets are added.
    pub sum: Running,
    ghost ordered: { start ≤ end },
}

impl ReceivedFile {
    ghost use Rattle.std.specs.Prelude.{◌≡◌, ℕ, ◌+◌, ◌<◌, ◌≤◌, IfOk, OnOk, false, None, Some, length, map};
    ghost use Rattle.smallvec.specs.SmallVec.{small_vec_len};
    ghost use Rattle.gap_list.specs.Runs.{new_runs};
    ghost use Rattle.receiver_table.specs.Answers.{octets_from};
    ghost use Rattle.gap_list.specs.Covered.{covered};
    ghost use Rattle.modular_sum.specs.Pieces.{IsSumOf};
    ghost use Rattle.receiver_parts.specs.Offsets.{part_of};
    ghost use Rattle.receiver_parts.specs.ReceivedFile.{received_of, received_with, with_segment, room_of, IsSegmentOf};

    /// A file of which nothing was received.
    pub fn new(alloc: Global) -> ReceivedFile
        ensures received { (i : ℕ) → received_of result i ≡ None }
        ensures gaps { (i : ℕ) → covered result.gaps i ≡ false }
    {
        ReceivedFile {
            pieces: Vec::new(alloc),
            gaps: Gaps::new(alloc),
            sum: Running::new(),
        }
    }

    // The checksum once the octets of a segment are added at these runs, which are those not received before.
    fn sum_with(&self, file_data: &FileData, start: u32, runs: &[Run]) -> Running
        requires starts { start ≡ file_data.now.offset }
        requires runs { runs.now ≡ new_runs (covered self.now.gaps) file_data.now.offset
            (file_data.now.offset + length file_data.now.octets) }
        ensures { IsSumOf (with_segment (received_of self.now) (Some file_data.now)) result }
    {
        sum_with_runs(self.sum, runs, start, file_data.octets.as_slice())
    }

    // The pieces of a segment at these runs, which are those not received before.
    fn parts_at(&self, file_data: &FileData, start: u32, runs: &[Run]) -> Result<Pieces, AllocError>
        requires starts { start ≡ file_data.now.offset }
        requires runs { runs.now ≡ new_runs (covered self.now.gaps) file_data.now.offset
            (file_data.now.offset + length file_data.now.octets) }
        ensures { IfOk result
            (λ pieces. pieces.items ≡ map (part_of file_data.now.offset file_data.now.octets) runs.now) }
    {
        parts_of(*self.pieces.allocator(), &file_data.octets, start, runs)
    }

    /// What a segment adds to the file. `end` is one more than its last offset.
    pub fn segment(&self, file_data: &FileData, end: u32) -> Result<NewSegment, AllocError>
        requires { end ≡ file_data.now.offset + length file_data.now.octets }
        ensures runs { IfOk result
            (λ segment. segment.runs.items ≡ new_runs (covered self.now.gaps) file_data.now.offset
            (file_data.now.offset + length file_data.now.octets)) }
        ensures pieces { IfOk result
            (λ segment. segment.pieces.items ≡ map (part_of file_data.now.offset file_data.now.octets) segment.runs.items) }
        ensures received { IfOk result (λ segment. (i : ℕ)
            → received_with self.now segment i ≡ with_segment (received_of self.now) (Some file_data.now) i) }
        ensures segment { IfOk result (λ segment. IsSegmentOf self.now segment) }
    {
        let start = file_data.offset as u32;
        let runs = self.gaps.new_within(start, end)?;
        let pieces = self.parts_at(file_data, start, runs.as_slice())?;
        let sum = self.sum_with(file_data, start, runs.as_slice());
        Ok(NewSegment {
            start,
            end,
            runs,
            pieces,
            sum,
        })
    }

    /// The octets below a size, with 0 for those that are missing.
    pub fn below(&self, size: u32) -> Result<Vec<u8>, AllocError>
        ensures { IfOk result (λ octets. octets.items ≡ octets_from (received_of self.now) 0 size) }
    {
        let mut octets = Vec::with_capacity(*self.pieces.allocator(), size as usize)?;
        put_pieces(&mut octets, self.pieces.as_slice())?;
        resize(&mut octets, size as usize)?;
        Ok(octets)
    }

    // Makes room for `count` more pieces.
    fn reserve_pieces(&mut self, count: usize) -> Result<(), AllocError>
        ensures received { (i : ℕ) → received_of self.new i ≡ received_of self.old i }
        ensures gaps { self.new.gaps ≡ self.old.gaps }
        ensures kept { room_of self.old ≤ room_of self.new }
        ensures pieces { OnOk result (count ≤ room_of self.new) }
    {
        self.pieces.reserve(count)
    }

    // Makes room for one more run of offsets.
    fn reserve_run(&mut self) -> Result<(), AllocError>
        ensures received { (i : ℕ) → received_of self.new i ≡ received_of self.old i }
        ensures gaps { (i : ℕ) → covered self.new.gaps i ≡ covered self.old.gaps i }
        ensures pieces { room_of self.new ≡ room_of self.old }
        ensures kept { self.old.gaps.room ≤ self.new.gaps.room }
        ensures run { OnOk result (0 < self.new.gaps.room) }
    {
        self.gaps.reserve(1)
    }

    /// Makes room for `count` more pieces, and for one more run of offsets.
    pub fn make_room(&mut self, count: usize) -> Result<(), AllocError>
        ensures received { (i : ℕ) → received_of self.new i ≡ received_of self.old i }
        ensures gaps { (i : ℕ) → covered self.new.gaps i ≡ covered self.old.gaps i }
        ensures longer { room_of self.old ≤ room_of self.new }
        ensures kept { self.old.gaps.room ≤ self.new.gaps.room }
        ensures pieces { OnOk result (count ≤ room_of self.new) }
        ensures run { OnOk result (0 < self.new.gaps.room) }
    {
        self.reserve_pieces(count)?;
        self.reserve_run()
    }

    /// Adds a segment to the file, without allocating.
    pub fn take(&mut self, segment: NewSegment)
        requires segment { IsSegmentOf self.old segment }
        requires pieces { small_vec_len segment.pieces ≤ room_of self.old }
        requires run { 0 < self.old.gaps.room }
        ensures received { (i : ℕ) → received_of self.new i ≡ received_with self.old segment i }
    {
        append(&mut self.pieces, segment.pieces);
        self.gaps.add(segment.start, segment.end);
        self.sum = segment.sum;
    }
}
