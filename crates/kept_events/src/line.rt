//! An event that is kept. That a segment came happens with each datagram, and is rarely read, so its line is written once
//! it is wanted.
ghost use Rattle.std.specs.Prelude.{◌≡◌, IfOk};
ghost use Rattle.kept_events.specs.KeptLines.{segment_line};

use cfdp_types::{Octets, TxnKey};
use event_levels::Level;
use indications::Indication;
use station_lines::{EventHead, IndicationEvent, push_indication_event};
use std::alloc::{AllocError, Global};
use std::marker::Model;

/// A File-Segment-Recv of a user.
#[derive(Clone, Copy, Debug)]
pub struct SegmentEvent<'a> {
    pub head: EventHead,
    /// The user's name.
    pub user: &'a str,
    pub key: TxnKey,
    pub offset: u32,
    pub length: u32,
}

/// An event's line.
#[derive(Drop)]
pub enum Text<'a> {
    Written(Octets),
    Segment(SegmentEvent<'a>),
}

/// An event that is kept, and how much it matters. Contracts see its line.
#[derive(Drop)]
pub struct KeptLine<'a> {
    level: Level,
    text: Text<'a>,
}

impl<'a> Model for KeptLine<'a> {
    ghost use Rattle.kept_events.specs.KeptLines.{LineValue, text_of, weight_of};

    ghost Value = { LineValue };

    ghost view = { λ l. record { level = l.level; text = text_of l.text; weight = weight_of l.text } };
}

impl<'a> KeptLine<'a> {
    ghost use Rattle.std.specs.Prelude.{◌≡◌, IfOk};
    ghost use Rattle.kept_events.specs.Rings.{kept_line, kept_segment};

    /// An event whose line is written.
    pub fn written(level: Level, text: Octets) -> KeptLine<'a>
        ensures { result ≡ kept_line level text }
    {
        KeptLine {
            level,
            text: Text::Written(text),
        }
    }

    /// A segment's event, whose line is written once it is wanted.
    pub fn segment(level: Level, event: SegmentEvent<'a>) -> KeptLine<'a>
        ensures { result ≡ kept_segment level event.entry }
    {
        KeptLine {
            level,
            text: Text::Segment(event),
        }
    }

    /// How much it matters.
    pub fn level(&self) -> Level
        ensures { result ≡ self.now.level }
    {
        self.level
    }

    /// How many octets of the line are written already.
    pub fn weight(&self) -> usize
        ensures { result ≡ self.now.weight }
    {
        match &self.text {
            Text::Written(octets) => octets.as_slice().len(),
            Text::Segment(_) => 0,
        }
    }

    /// The line, with the memory for one that isn't written yet.
    pub(crate) fn octets(&self, alloc: Global) -> Result<Octets, AllocError>
        ensures { IfOk result (λ octets. octets ≡ self.now.text) }
    {
        match &self.text {
            Text::Written(octets) => octets.copy(),
            Text::Segment(event) => segment_octets(alloc, event),
        }
    }
}

// The line of a segment's event.
fn segment_octets(alloc: Global, event: &SegmentEvent<'_>) -> Result<Octets, AllocError>
    ensures { IfOk result (λ octets. octets ≡ segment_line event.entry.now) }
{
    let mut text = String::new(alloc);
    let indication = Indication::FileSegmentRecv {
        offset: event.offset,
        length: event.length,
    };
    let said = IndicationEvent {
        user: event.user,
        key: event.key,
        indication: &indication,
    };
    push_indication_event(alloc, &mut text, event.head, &said)?;
    Octets::from_slice(alloc, text.as_bytes())
}
