//! Finds lines in the octets that were received.
ghost use Rattle.std.specs.Prelude.{◌≡◌, ◌++◌, ◌↔◌, ◌<◌, [], length, IsTrue, OnOk, OnErr, IfOk, IfSome};
ghost use Rattle.station_client.specs.Lines.{BeginsEvent, feed_place, IsNext, IsOfKind};

use crate::fault::StationFault;
use std::alloc::Global;
use std::marker::Model;

/// The most octets of a line that a station sends.
pub const LINE_OCTETS: usize = 140_000;

/// The kinds of lines.
#[derive(Clone, Copy, Debug, PartialEq, Eq)]
pub enum LineKind {
    /// A line of a reply.
    Answer,
    /// The end of a reply: a single dot.
    End,
    /// An event: `event JSON`.
    Event,
    /// No seat is free: `busy`.
    Busy,
}

/// The kind of a line, given without its line feed.
pub fn kind_of(line: &[u8]) -> LineKind
    ensures { IsOfKind result line.now }
{
    if line == b".".as_slice() {
        LineKind::End
    } else if line == b"busy".as_slice() {
        LineKind::Busy
    } else if begins_event(line) {
        LineKind::Event
    } else {
        LineKind::Answer
    }
}

// Whether a line is an event.
fn begins_event(line: &[u8]) -> bool
    ensures { IsTrue result ↔ BeginsEvent line.now }
{
    line.len() >= 6 && &line[..6] == b"event ".as_slice()
}

// The place of the first line feed.
fn feed_place(octets: &[u8]) -> Option<usize>
    ensures place { result ≡ feed_place octets.now }
    ensures within { IfSome result (λ at. at < length octets.now) }
{
    octets.iter().position(|octet| *octet == b'\n')
}

/// The octets that were received and not yet read as lines. Contracts see them as a list.
#[derive(Debug, Drop)]
pub struct Incoming {
    octets: Vec<u8>,
    // how many of the octets were read as lines
    start: usize,
}

impl Model for Incoming {
    ghost use Rattle.std.specs.Prelude.{ℕ, List, drop, ◌≤◌, vec_len};

    ghost Value = { List ℕ };

    ghost view = { λ i. drop i.start i.octets.items };

    ghost invariant = { λ i. i.start ≤ vec_len i.octets };
}

impl Incoming {
    /// No octets yet.
    pub fn new(alloc: Global) -> Incoming
        ensures { result ≡ [] }
    {
        Incoming {
            octets: Vec::new(alloc),
            start: 0,
        }
    }

    /// How many octets are not yet read as lines.
    pub fn len(&self) -> usize
        ensures { result ≡ length self.now }
    {
        self.octets.len() - self.start
    }

    /// Adds octets that were received.
    pub fn push(&mut self, came: &[u8]) -> Result<(), StationFault>
        ensures ok { OnOk result (self.new ≡ self.old ++ came.now) }
        ensures err { OnErr result (self.new ≡ self.old) }
    {
        self.forget_read();
        self.octets.extend_from_slice(came)?;
        Ok(())
    }

    // Drops the octets that were read, once they are the greater part.
    fn forget_read(&mut self)
        ensures { self.new ≡ self.old }
    {
        if self.start > self.octets.len() / 2 {
            let _read = self.octets.drain(..self.start);
            self.start = 0;
        }
    }

    /// Moves the first whole line into `line`, in place of its content, and returns its kind; `None` without a whole
    /// line. After an error, the content of `line` is unspecified.
    pub fn next_line(&mut self, line: &mut Vec<u8>) -> Result<Option<LineKind>, StationFault>
        ensures ok { IfOk result (λ kind. IsNext kind self.old line.new.items self.new) }
        ensures err { OnErr result (self.new ≡ self.old) }
    {
        let came = &self.octets[self.start..];
        match feed_place(came) {
            Some(at) => {
                line.clear();
                line.extend_from_slice(&came[..at])?;
                let kind = kind_of(line.as_slice());
                self.start += at + 1;
                Ok(Some(kind))
            }
            None => Ok(None),
        }
    }
}
