use crate::marks::Marks;
use crate::segments::Segments;
use cfdp_types::limits::FILE_OCTETS;
use gap_list::Run;
use indications::{Indication, IndicationKind, Side};
use std::alloc::{AllocError, Global};

/// The indication may not come next, or there is no room for its segment.
#[derive(Clone, Copy, Debug, PartialEq, Eq)]
pub struct NotAWord;

/// Reads the indications of one transaction in order, at its sender or at its receiver. Accepts an indication only
/// where it and those accepted before are the beginning of a word.
#[derive(Drop)]
pub struct WordReader {
    side: Side,
    marks: Marks,
    // None where there is no room for segments.
    segments: Option<Segments>,
}

impl WordReader {
    ghost use Rattle.std.specs.Prelude.{◌≡◌, ℕ, ◌∷◌, ◌++◌, [], List, ◌↔◌, IsTrue, true, false, IsOk, IfOk, OnOk, OnErr};
    ghost use Rattle.std.specs.List.{list_any};
    ghost use Rattle.indications.specs.declared.indication.Indication.{Indication};
    ghost use Rattle.indications.specs.declared.side.Side.{Side};
    ghost use Rattle.indications.specs.declared.side.Side.TheVariants.{Receiver};
    ghost use Rattle.ind_words.specs.Offsets.{IsInitial};
    ghost use Rattle.ind_words.specs.Reading.{covers, room_left, StandsAfter, Knows, MayGoOn, HasRoom, HasAdded};
    ghost use Rattle.indications.specs.Words.{IsNextOf, IsNext, IsWordOf, is_end};

    /// A reader without room for segments. Does not allocate.
    pub fn new(side: Side) -> WordReader
        ensures { StandsAfter result side 0 [] }
    {
        WordReader::of(side, None)
    }

    /// A reader with room for `room` segments.
    pub fn with_room(alloc: Global, side: Side, room: usize) -> Result<WordReader, AllocError>
        ensures { IfOk result (λ reader. StandsAfter reader side room []) }
    {
        let segments = Segments::with_room(alloc, room)?;
        Ok(WordReader::of(side, Some(segments)))
    }

    /// Accepts an indication if it may come next and there is room for its segment. Does not allocate. A segment costs
    /// a binary search among the runs of the earlier segments, and moves the runs above it.
    pub fn next(&mut self, indication: &Indication) -> Result<(), NotAWord>
        ensures exact { (side : Side) (room : ℕ) (word : List Indication) → StandsAfter self.old side room word
            → (IsOk result ↔ MayGoOn side room word indication.now) }
        ensures taken { OnOk result ((side : Side) (room : ℕ) (word : List Indication)
            → StandsAfter self.old side room word
            → StandsAfter self.new side room (word ++ indication.now ∷ [])) }
        ensures refused { OnErr result (self.new ≡ self.old) }
    {
        if self.accept(indication) {
            Ok(())
        } else {
            Err(NotAWord)
        }
    }

    /// Whether the accepted indications are a whole word, which has an end of the transaction.
    pub fn at_end(&self) -> bool
        ensures { (side : Side) (room : ℕ) (word : List Indication) → StandsAfter self.now side room word
            → (IsTrue result ↔ IsWordOf side word) }
    {
        self.marks.ended
    }

    fn of(side: Side, segments: Option<Segments>) -> WordReader
        requires { (i : ℕ) → covers segments i ≡ false }
        ensures { StandsAfter result side (room_left segments) [] }
    {
        WordReader {
            side,
            marks: Marks::NONE,
            segments,
        }
    }

    // Accepts an indication if it may come next.
    fn accept(&mut self, indication: &Indication) -> bool
        ensures exact { (side : Side) (room : ℕ) (before : List Indication) → Knows self.old side room before
            → (IsTrue result
            ↔ ((list_any is_end before ≡ false) × IsNextOf side before indication.now × HasRoom room before indication.now)) }
        ensures taken { result ≡ true → (side : Side) (room : ℕ) (before : List Indication)
            → Knows self.old side room before
            → Knows self.new side room (indication.now ∷ before) }
        ensures refused { result ≡ false → self.new ≡ self.old }
    {
        if self.marks.ended || !self.allow(indication) {
            return false;
        }
        self.marks = self.marks.after(indication);
        true
    }

    // Whether a side that has issued no end may issue the indication. Adds the offsets of a segment, but changes
    // no mark.
    fn allow(&mut self, indication: &Indication) -> bool
        ensures exact { (side : Side) (room : ℕ) (before : List Indication) → Knows self.old side room before
            → (IsTrue result ↔ (IsNextOf side before indication.now × HasRoom room before indication.now)) }
        ensures added { result ≡ true → HasAdded self.old self.new indication.now }
        ensures refused { result ≡ false → self.new ≡ self.old }
    {
        match self.side {
            Side::Sender => self.marks.allow_sender(indication),
            Side::Receiver => self.allow_of_receiver(indication),
        }
    }

    fn allow_of_receiver(&mut self, indication: &Indication) -> bool
        ensures exact { (room : ℕ) (before : List Indication) → Knows self.old Receiver room before
            → (IsTrue result ↔ (IsNext before indication.now × HasRoom room before indication.now)) }
        ensures added { result ≡ true → HasAdded self.old self.new indication.now }
        ensures refused { result ≡ false → self.new ≡ self.old }
    {
        match indication.kind() {
            IndicationKind::Segment { offset, length } => {
                take_segment(&mut self.segments, offset, length)
            }
            _ => {
                let initial = self.is_initial();
                self.marks.allow_receiver(indication, initial)
            }
        }
    }

    // Whether the accepted segments are exactly the offsets below some size.
    fn is_initial(&self) -> bool
        ensures { IsTrue result ↔ IsInitial (covers self.now.segments) }
    {
        match &self.segments {
            None => true,
            Some(segments) => segments.is_initial(),
        }
    }
}

ghost use Rattle.std.specs.Prelude.{◌≡◌, ◌+◌, ◌<◌, ◌≤◌, ◌↔◌, true, false, IsTrue, IfSome, IsSome};
ghost use Rattle.cfdp_types.specs.declared.limits.TheConstants.{FILE_OCTETS};
ghost use Rattle.gap_list.specs.Runs.{SameSet, with_range, IsFree};
ghost use Rattle.ind_words.specs.Reading.{covers, room_left};

// Accepts a segment that lies within the largest file and shares no offset with those before it, while there
// is room.
fn take_segment(segments: &mut Option<Segments>, offset: u32, length: u32) -> bool
    ensures exact { IsTrue result ↔ ((0 < length) × (offset + length ≤ FILE_OCTETS)
        × IsFree (covers segments.old) offset (offset + length) × (0 < room_left segments.old)) }
    ensures left { result ≡ true → room_left segments.new + 1 ≡ room_left segments.old }
    ensures covered { result ≡ true
        → SameSet (covers segments.new) (with_range (covers segments.old) offset (offset + length)) }
    ensures refused { result ≡ false → segments.new ≡ segments.old }
{
    let Some(segments) = segments else {
        return false;
    };
    match run_of(offset, length) {
        None => false,
        Some(run) => segments.take(run),
    }
}

// The offsets of a segment; None where it is empty or exceeds the largest file.
fn run_of(offset: u32, length: u32) -> Option<Run>
    ensures starts { IfSome result (λ run. run.start ≡ offset) }
    ensures ends { IfSome result (λ run. run.end ≡ offset + length) }
    ensures filled { IfSome result (λ _. 0 < length) }
    ensures within { IfSome result (λ _. offset + length ≤ FILE_OCTETS) }
    ensures none { 0 < length → offset + length ≤ FILE_OCTETS → IsSome result }
{
    let end = offset.checked_add(length)?;
    if length == 0 || end > FILE_OCTETS {
        return None;
    }
    Some(Run { start: offset, end })
}
