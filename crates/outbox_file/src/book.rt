//! What the lines of a file say, one after the other.
ghost use Rattle.std.specs.Prelude.{◌≡◌, OnOk};
ghost use Rattle.std.specs.List.{filter};
ghost use Rattle.outbox_file.specs.Books.{HasRoom, after, empty, has_other, is_other, value};

use crate::lines::Line;
use cfdp_types::Octets;
use std::alloc::{AllocError, Global};

/// A file that was queued, and has neither ended nor been dropped.
#[derive(Drop)]
pub struct Entry {
    /// Its number in the outbox.
    pub number: u64,
    /// When it was queued, in milliseconds since the start of 1970.
    pub since: u64,
    /// The words of its command, which name its user: a line, without the line feed.
    pub words: Octets,
}

/// What a file says.
#[derive(Drop)]
pub struct Book {
    /// The files in the order in which they were queued.
    pub entries: Vec<Entry>,
    /// The numbers of those that began.
    pub begun: Vec<u64>,
    /// The number that the next file gets.
    pub next: u64,
}

impl Book {
    /// Nothing was queued yet.
    pub(crate) fn new(alloc: Global) -> Book
        ensures { value result ≡ empty }
    {
        Book {
            entries: Vec::new(alloc),
            begun: Vec::new(alloc),
            next: 1,
        }
    }

    /// Makes room for one more line.
    pub(crate) fn reserve(&mut self) -> Result<(), AllocError>
        ensures same { value self.new ≡ value self.old }
        ensures ok { OnOk result (HasRoom self.new) }
    {
        self.entries.try_reserve(1)?;
        self.begun.try_reserve(1)
    }

    /// Notes what one more line says.
    pub(crate) fn note(&mut self, line: Line)
        requires { HasRoom self.old }
        ensures { value self.new ≡ after line (value self.old) }
    {
        match line {
            Line::Next(number) => self.next = number,
            Line::Queued(entry) => {
                self.next = entry.number.saturating_add(1);
                self.entries.push_reserved(entry);
            }
            Line::Began(number) => self.begun.push_reserved(number),
            Line::Ended(number) | Line::Dropped(number) => self.remove(number),
        }
    }

    // Takes out the file with a number.
    fn remove(&mut self, number: u64)
        ensures entries { self.new.entries.items ≡ filter (is_other number) self.old.entries.items }
        ensures begun { self.new.begun.items ≡ filter (has_other number) self.old.begun.items }
        ensures next { self.new.next ≡ self.old.next }
    {
        self.entries.retain(
            |entry: &Entry| -> bool
                ensures { result ≡ is_other number entry.now }
            { entry.number != number },
        );
        self.begun.retain(
            |begun: &u64| -> bool
                ensures { result ≡ has_other number begun.now }
            { *begun != number },
        );
    }
}
