//! The last events, for clients that follow later.
ghost use Rattle.std.specs.Prelude.{◌≡◌, ◌++◌, [], IfOk, OnErr, OnOk};
ghost use Rattle.kept_events.specs.Rings.{kept_line, kept_segment, kept_with, shown, texts};

use crate::line::{KeptLine, SegmentEvent};
use crate::ring::{Form, Ring};
use cfdp_types::Octets;
use event_levels::Level;
use std::alloc::{AllocError, Global};
use std::marker::Model;

/// The last events, and the last ones of `info` and above, so that many details push nothing else out. Each text is in
/// memory once. Contracts see both lists, oldest first.
#[derive(Drop)]
pub struct KeptEvents<'a> {
    alloc: Global,
    all: Ring<'a>,
    notable: Ring<'a>,
}

impl<'a> Model for KeptEvents<'a> {
    ghost use Rattle.kept_events.specs.Rings.{KeptValue};

    ghost Value = { KeptValue };

    ghost view = { λ k. record { all = k.all; notable = k.notable } };
}

impl<'a> KeptEvents<'a> {
    /// Without any event so far. Memory for the lists is reserved here, but not for the events' text.
    pub fn new(alloc: Global) -> Result<KeptEvents<'a>, AllocError>
        ensures all { IfOk result (λ kept. kept.all ≡ []) }
        ensures notable { IfOk result (λ kept. kept.notable ≡ []) }
    {
        Ok(KeptEvents {
            alloc,
            all: Ring::new(alloc)?,
            notable: Ring::new(alloc)?,
        })
    }

    /// Keeps one more event, a line, and drops the oldest ones that have no room beside it.
    pub fn push(&mut self, level: Level, line: &[u8]) -> Result<(), AllocError>
        ensures ok { OnOk result (self.new ≡ kept_with (kept_line level line.now) self.old) }
        ensures err { OnErr result (self.new ≡ self.old) }
    {
        let text = Octets::from_slice(self.alloc, line)?;
        if level.reaches(Level::Info) {
            let copy = text.copy()?;
            self.notable.push(KeptLine::written(level, copy));
        }
        self.all.push(KeptLine::written(level, text));
        Ok(())
    }

    /// Keeps a segment's event, which is a detail, without writing its line.
    pub fn push_segment(&mut self, event: SegmentEvent<'a>)
        ensures { self.new ≡ kept_with (kept_segment Level.Detail event.entry) self.old }
    {
        self.all.push(KeptLine::segment(Level::Detail, event));
    }

    /// Adds the last events of a level or above, at most so many, each after a word. If memory runs out, a part of them
    /// may have been added.
    pub fn push_last(
        &self,
        text: &mut Vec<u8>,
        word: &[u8],
        least: Level,
        most: usize,
        form: Form,
    ) -> Result<(), AllocError>
        ensures { OnOk result (text.new.items ≡ text.old.items ++ texts form word.now (shown least most self.now)) }
    {
        match least {
            Level::Detail => self.all.push_last(text, word, least, most, form),
            Level::Info | Level::Warning => self.notable.push_last(text, word, least, most, form),
        }
    }
}
