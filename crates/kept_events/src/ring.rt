//! Lines of which the last ones are kept.
ghost use Rattle.std.specs.Prelude.{◌≡◌, ◌++◌, [], IfOk, OnOk, drop, length};
ghost use Rattle.std.specs.List.{filter};
ghost use Rattle.std.specs.VecDeque.{deque_capacity};
ghost use Rattle.kept_events.specs.Rings.{has_no_room, last_of, matters, octets_of, pushed, text_after, texts, trimmed};

use crate::line::KeptLine;
use event_levels::{Level, push_labelled};
use std::alloc::{AllocError, Global};
use std::collections::VecDeque;
use std::marker::Model;

/// How many lines are kept at most.
pub const KEPT_LINES: usize = 1_024;

/// How many octets of the kept lines are written at most, the last line not counted.
pub const KEPT_OCTETS: usize = 2 * 1_024 * 1_024;

/// How lines are shown.
#[derive(Clone, Copy, Debug, PartialEq, Eq)]
pub enum Form {
    /// As they are.
    Plain,
    /// Each with its level.
    Labelled,
}

/// The last lines, oldest first. Contracts see the list of them.
#[derive(Drop)]
pub struct Ring<'a> {
    lines: VecDeque<KeptLine<'a>>,
    octets: usize,
}

impl<'a> Model for Ring<'a> {
    ghost use Rattle.std.specs.Prelude.{◌≡◌, ◌≤◌, List};
    ghost use Rattle.std.specs.VecDeque.{deque_capacity};
    ghost use Rattle.kept_events.specs.Rings.{octets_of};
    ghost use Rattle.kept_events.specs.KeptLines.{LineValue};

    ghost Value = { List LineValue };

    ghost view = { λ r. r.lines.items };

    ghost invariant = { λ r. (r.octets ≡ octets_of r.lines.items) × (1024 ≤ deque_capacity r.lines) };
}

impl<'a> Ring<'a> {
    /// Without any line so far. Memory for the list is reserved here, but not for the lines' text.
    pub fn new(alloc: Global) -> Result<Ring<'a>, AllocError>
        ensures { IfOk result (λ ring. ring ≡ []) }
    {
        Ok(Ring {
            lines: VecDeque::with_capacity(alloc, KEPT_LINES)?,
            octets: 0,
        })
    }

    /// Keeps one more line, and drops the oldest ones that have no room beside it.
    pub fn push(&mut self, line: KeptLine<'a>)
        ensures { self.new ≡ pushed line.entry self.old }
    {
        let more = line.weight();
        let octets = make_room(&mut self.lines, self.octets, more);
        self.octets = octets.saturating_add(more);
        self.lines.push_back_reserved(line);
    }

    /// How many lines are kept.
    pub fn len(&self) -> usize
        ensures { result ≡ length self.now }
    {
        self.lines.len()
    }

    /// How many lines of a level or above are kept.
    pub fn count(&self, least: Level) -> usize
        ensures { result ≡ length (filter (matters least) self.now) }
    {
        self.lines
            .iter()
            .filter(|line| line.level().reaches(least))
            .count()
    }

    /// Adds the last lines of a level or above, at most so many, each after a word. If memory runs out, a part of them
    /// may have been added.
    pub fn push_last(
        &self,
        text: &mut Vec<u8>,
        word: &[u8],
        least: Level,
        most: usize,
        form: Form,
    ) -> Result<(), AllocError>
        ensures { OnOk result (text.new.items ≡ text.old.items ++ texts form word.now (last_of most (filter (matters least) self.now))) }
    {
        let skipped = self.count(least).saturating_sub(most);
        push_behind(&self.lines, text, word, least, skipped, form)
    }
}

// Adds the lines of a level or above, without so many of the first ones, each after a word.
fn push_behind(
    lines: &VecDeque<KeptLine<'_>>,
    text: &mut Vec<u8>,
    word: &[u8],
    least: Level,
    skipped: usize,
    form: Form,
) -> Result<(), AllocError>
    ensures { OnOk result (text.new.items ≡ text.old.items ++ texts form word.now (drop skipped (filter (matters least) lines.now.items))) }
{
    let mut passed = 0usize;
    for place in 0..lines.len() {
        let Some(line) = lines.get(place) else {
            break;
        };
        if !line.level().reaches(least) {
            continue;
        }
        if passed < skipped {
            passed += 1;
        } else {
            push_line(text, word, line, form)?;
        }
    }
    Ok(())
}

// Adds a line after a word.
fn push_line(
    text: &mut Vec<u8>,
    word: &[u8],
    line: &KeptLine<'_>,
    form: Form,
) -> Result<(), AllocError>
    ensures { OnOk result (text.new.items ≡ text.old.items ++ text_after form word.now line.now) }
{
    let octets = line.octets(*text.allocator())?;
    text.extend_from_slice(word)?;
    match form {
        Form::Plain => text.extend_from_slice(octets.as_slice()),
        Form::Labelled => push_labelled(text, octets.as_slice(), line.level()),
    }
}

// Drops the oldest lines until one of so many octets has room. Returns how many octets the remaining lines have.
fn make_room(lines: &mut VecDeque<KeptLine<'_>>, octets: usize, more: usize) -> usize
    requires { octets ≡ octets_of lines.old.items }
    ensures lines { lines.new.items ≡ trimmed more lines.old.items }
    ensures octets { result ≡ octets_of lines.new.items }
    ensures capacity { deque_capacity lines.new ≡ deque_capacity lines.old }
{
    let mut octets = octets;
    'full: while is_full(lines.len(), octets, more) {
        let Some(oldest) = lines.pop_front() else {
            break;
        };
        octets -= oldest.weight();
    }
    octets
}

// Whether there is no room for one more line of so many octets.
fn is_full(count: usize, octets: usize, more: usize) -> bool
    ensures { result ≡ has_no_room count octets more }
{
    count >= KEPT_LINES || octets.saturating_add(more) > KEPT_OCTETS
}
