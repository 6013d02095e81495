//! The last events.
use std::alloc::{AllocError, Global};
use std::collections::VecDeque;

/// How many events are kept: so many pieces of files, and as many of all others.
pub const EVENTS: usize = 1024;

/// How many octets of pieces are kept, and of others.
pub const EVENT_OCTETS: usize = 2 * 1024 * 1024;

// One event.
#[derive(Drop)]
struct Event {
    number: u64,
    json: Vec<u8>,
}

// The most octets of a run's start.
const START_OCTETS: usize = 64;

// The last events of a kind, the oldest first.
#[derive(Drop)]
struct Ring {
    kept: VecDeque<Event>,
    octets: usize,
}

impl Ring {
    // No event was seen yet.
    fn new(alloc: Global) -> Ring {
        Ring {
            kept: VecDeque::new(alloc),
            octets: 0,
        }
    }

    // Forgets all events.
    fn clear(&mut self) {
        self.kept.clear();
        self.octets = 0;
    }

    // Keeps an event whose number rises, and forgets the oldest ones if there are too many.
    fn push(&mut self, event: Event) -> Result<(), AllocError> {
        if self.newest() >= Some(event.number) {
            return Ok(());
        }
        let more = event.json.len();
        if self.kept.push_back(event).is_err() {
            return Err(AllocError);
        }
        self.octets = self.octets.saturating_add(more);
        if self.kept.len() > EVENTS {
            self.forget_oldest();
        }
        for _ in 0..EVENTS {
            if self.octets <= EVENT_OCTETS {
                break;
            }
            self.forget_oldest();
        }
        Ok(())
    }

    // Forgets the oldest event.
    fn forget_oldest(&mut self) {
        if let Some(oldest) = self.kept.pop_front() {
            self.octets = self.octets.saturating_sub(oldest.json.len());
        }
    }

    // The number of the last event.
    fn newest(&self) -> Option<u64> {
        Some(self.kept.back()?.number)
    }
}

/// The last events of one run of a station. Pieces of files are kept apart from all others, so that a large file pushes
/// out nothing else. An event's ID is the run's start, a dash and the event's number.
#[derive(Drop)]
pub struct Events {
    start: Vec<u8>,
    pieces: Ring,
    others: Ring,
}

impl Events {
    /// No event was seen yet.
    pub fn new(alloc: Global) -> Events {
        Events {
            start: Vec::new(alloc),
            pieces: Ring::new(alloc),
            others: Ring::new(alloc),
        }
    }

    /// Begins the run with this start, to which the next events belong, and forgets the events of another run. A start
    /// that can't be in an ID counts as none. If there is none, all events are forgotten.
    pub fn begin(&mut self, start: &[u8]) -> Result<(), AllocError> {
        let start = if is_plain(start) {
            start
        } else {
            b"".as_slice()
        };
        if start.is_empty() || self.start.as_slice() != start {
            self.pieces.clear();
            self.others.clear();
            self.start.clear();
            self.start.extend_from_slice(start)?;
        }
        Ok(())
    }

    /// Keeps an event of the run, and forgets the oldest ones of its kind if there are too many. One whose number
    /// doesn't rise among its kind came before, and isn't kept again; nor is one with a carriage return.
    pub fn push(&mut self, number: u64, json: Vec<u8>) -> Result<(), AllocError> {
        if json.as_slice().contains(&b'\r') {
            return Ok(());
        }
        let event = Event { number, json };
        if is_piece(&event) {
            self.pieces.push(event)
        } else {
            self.others.push(event)
        }
    }

    // The number of the last event.
    fn newest(&self) -> Option<u64> {
        self.pieces.newest().max(self.others.newest())
    }

    // The number of the event with this ID; 0 where it isn't one of this run's, or is newer than all that came.
    fn number_of(&self, id: &[u8]) -> u64 {
        match number_in(id, self.start.as_slice()) {
            Some(number) if self.newest() >= Some(number) => number,
            _ => 0,
        }
    }

    /// Adds the events after the one with this ID, as server-sent events; all of them if the ID isn't one of this
    /// run's, or is newer than all that came. Asks the reader to come again after a second.
    pub fn append_to(&self, last: &[u8], text: &mut Vec<u8>) -> Result<(), AllocError> {
        let after = self.number_of(last);
        let (mut piece, mut other) = (0_usize, 0_usize);
        text.extend_from_slice(b"retry: 1000\n\n".as_slice())?;
        for _ in 0..2 * EVENTS {
            let event = match (self.pieces.kept.get(piece), self.others.kept.get(other)) {
                (Some(one), Some(later)) if one.number < later.number => one,
                (_, Some(one)) => one,
                (Some(one), None) => one,
                (None, None) => break,
            };
            if is_piece(event) {
                piece = piece.saturating_add(1);
            } else {
                other = other.saturating_add(1);
            }
            if event.number > after {
                append_event(self.start.as_slice(), event, text)?;
            }
        }
        Ok(())
    }
}

// Whether an event is a piece of a file, by its level, which is its last member.
fn is_piece(event: &Event) -> bool {
    event.json.as_slice().ends_with(b"\"detail\"}".as_slice())
}

// Whether a run's start can be in an ID.
fn is_plain(start: &[u8]) -> bool {
    start.len() <= START_OCTETS && start.iter().all(|octet| octet.is_ascii_graphic())
}

// The number of an ID that begins with this start.
fn number_in(id: &[u8], start: &[u8]) -> Option<u64> {
    let digits = id.strip_prefix(start)?.strip_prefix(b"-".as_slice())?;
    if digits.first() == Some(&b'+') {
        return None;
    }
    str::from_utf8(digits).ok()?.parse::<u64>().ok()
}

// Adds one event.
fn append_event(start: &[u8], event: &Event, text: &mut Vec<u8>) -> Result<(), AllocError> {
    let mut digits = itoa::Buffer::new();
    text.extend_from_slice(b"id: ".as_slice())?;
    text.extend_from_slice(start)?;
    text.extend_from_slice(b"-".as_slice())?;
    text.extend_from_slice(digits.format(event.number).as_bytes())?;
    text.extend_from_slice(b"\ndata: ".as_slice())?;
    text.extend_from_slice(event.json.as_slice())?;
    text.extend_from_slice(b"\n\n".as_slice())
}
