//! The outbox with its file.
ghost use Rattle.std.specs.Prelude.{◌≡◌, [], true, false, IfOk, OnErr, OnOk, string_bytes};
ghost use Rattle.std.specs.List.{list_any};
ghost use Rattle.outbox_file.specs.Files.{NotesLine, Opens};
ghost use Rattle.outbox_file.specs.declared.lines.Line.TheVariants as line;
ghost use Rattle.program_outbox.specs.Outboxes.{has_number};
ghost use Rattle.program_outbox.specs.Outgoings.{is_named};
ghost use Rattle.held_outbox.specs.Held.{Drops, Leaves, Queues, Settles, StaysOwed, Waits, has_file, line_of, moment_owed};

use disk::Disk;
use outbox_file::{Entry, StoredOutbox, StoredOutboxFault};
use program_outbox::{MOST_FILES, OutboxFault, OutboxFile, Outgoing, Waiting};
use std::alloc::{AllocError, Global};
use std::marker::Model;

// After how many milliseconds a line is tried again that couldn't be written.
const REST_MS: u64 = 1_000;

/// Why something isn't done with the outbox.
#[derive(Clone, Copy, Debug, PartialEq, Eq)]
pub enum HeldFault {
    /// As many files wait as may, those under way included; or the numbers are used up.
    Full,
    NoMemory,
    /// The file can't be read or written, or has a line that can't be parsed.
    Disk,
    /// Words of the file don't put a file in the outbox, by the configuration.
    NoFile,
}

/// How a file left the outbox for good.
#[derive(Clone, Copy, Debug, PartialEq, Eq)]
pub enum Way {
    /// Its transaction ended.
    Ended,
    /// It was given up.
    Dropped,
}

/// A file that left the outbox for good.
#[derive(Clone, Copy, Debug, PartialEq, Eq)]
pub struct Gone {
    /// Its number there.
    pub number: u64,
    pub way: Way,
}

/// The file of an outbox, and what it doesn't say yet because the disk didn't take it.
#[derive(Drop)]
pub struct HeldOutbox<D: Disk + Drop> {
    stored: StoredOutbox<D>,
    owed: Vec<Gone>,
    due: u64,
}

impl<D: Disk + Drop> Model for HeldOutbox<D> {
    ghost use Rattle.held_outbox.specs.Held.{HeldValue};

    ghost Value = { HeldValue };

    ghost view = { λ h. record { file = h.stored; owed = h.owed.items; due = h.due } };
}

impl<D: Disk + Drop> HeldOutbox<D> {
    /// Opens the file of this name in the disk's own folder, as `StoredOutbox` does; with `mends` without the lines that
    /// can't be parsed.
    pub fn open(
        disk: D,
        alloc: Global,
        path: String,
        mends: bool,
    ) -> Result<HeldOutbox<D>, HeldFault>
        ensures opens { IfOk result (λ held. Opens mends (string_bytes path) (D.done disk) held.file) }
        ensures nothing { IfOk result (λ held. held.owed ≡ []) }
    {
        let Ok(owed) = Vec::with_capacity(alloc, MOST_FILES) else {
            return Err(HeldFault::NoMemory);
        };
        match StoredOutbox::open(disk, alloc, path, mends) {
            Ok(stored) => Ok(HeldOutbox {
                stored,
                owed,
                due: 0,
            }),
            Err(why) => Err(fault_of(why)),
        }
    }

    /// The files that were queued and have neither ended nor been dropped, in the order in which they were queued.
    pub fn entries(&self) -> &[Entry]
        ensures { result.now ≡ self.now.file.book.entries }
    {
        self.stored.entries()
    }

    /// The number that the next file gets.
    pub fn next(&self) -> u64
        ensures { result ≡ self.now.file.book.next }
    {
        self.stored.next()
    }

    /// Puts a user's file in the outbox and in its file, by the words of its command. If the disk doesn't take it, it
    /// is in neither.
    pub fn queue(
        &mut self,
        outgoing: &mut Outgoing,
        user: usize,
        file: OutboxFile,
        words: &[u8],
        now: u64,
    ) -> Result<u64, HeldFault>
        ensures { Queues user file words.now now self.old outgoing.old result self.new outgoing.new }
    {
        if self.stored.entries().len() >= MOST_FILES {
            return Err(HeldFault::Full);
        }
        let (number, since) = (self.stored.next(), file.since);
        match outgoing.push_as(number, user, file, now) {
            Ok(()) => {}
            Err(OutboxFault::Full) => return Err(HeldFault::Full),
            Err(OutboxFault::NoMemory) => return Err(HeldFault::NoMemory),
        }
        match self.stored.queued(since, words) {
            Ok(number) => Ok(number),
            Err(why) => {
                drop(outgoing.withdraw(number));
                Err(fault_of(why))
            }
        }
    }

    /// Takes the file with a number out of the outbox, once its file says so; `None` if it isn't in the outbox.
    pub fn drop_file(
        &mut self,
        outgoing: &mut Outgoing,
        number: u64,
    ) -> Result<Option<Waiting>, HeldFault>
        ensures { Drops number self.old outgoing.old result self.new outgoing.new }
    {
        if !has_file(outgoing, number) {
            return Ok(None);
        }
        match self.stored.dropped(number) {
            Ok(()) => Ok(outgoing.withdraw(number)),
            Err(why) => Err(fault_of(why)),
        }
    }

    /// Notes in the file that the one with a number is under way.
    pub fn began(&mut self, number: u64) -> Result<(), HeldFault>
        ensures notes { NotesLine (line.Began number) self.old.file result self.new.file }
        ensures owed { self.new.owed ≡ self.old.owed }
        ensures due { self.new.due ≡ self.old.due }
    {
        self.stored.began(number).map_err(fault_of)
    }

    /// Notes in the file that one left for good. What the disk doesn't take is noted later. Without memory for that,
    /// the one that left comes back in the next run.
    pub fn leave(&mut self, gone: Gone, now: u64) -> Result<(), AllocError>
        ensures ok { OnOk result (Leaves gone now self.old self.new) }
        ensures err { OnErr result (StaysOwed gone now self.old self.new) }
    {
        match self.note(gone) {
            Ok(()) => Ok(()),
            Err(_) => {
                self.due = now.saturating_add(REST_MS);
                self.owed.push(gone)?;
                Ok(())
            }
        }
    }

    /// Tries again to note the first file that left and isn't noted, at most once a second while the disk takes
    /// nothing. Returns whether one was noted.
    pub fn settle(&mut self, now: u64) -> bool
        ensures noted { result ≡ true → Settles now self.old self.new }
        ensures not { result ≡ false → Waits now self.old self.new }
    {
        if now < self.due {
            return false;
        }
        let Some(gone) = self.owed.first().copied() else {
            return false;
        };
        if self.note(gone).is_err() {
            self.due = now.saturating_add(REST_MS);
            return false;
        }
        let _noted = self.owed.remove(0);
        true
    }

    /// A moment, or the one at which what isn't noted is tried again if that comes before it.
    pub fn next_moment(&self, until: u64) -> u64
        ensures { result ≡ moment_owed until self.now }
    {
        if self.owed.is_empty() {
            until
        } else {
            until.min(self.due)
        }
    }

    // Notes in the file that one left for good.
    fn note(&mut self, gone: Gone) -> Result<(), HeldFault>
        ensures notes { NotesLine (line_of gone) self.old.file result self.new.file }
        ensures owed { self.new.owed ≡ self.old.owed }
        ensures due { self.new.due ≡ self.old.due }
    {
        let noted = match gone.way {
            Way::Ended => self.stored.ended(gone.number),
            Way::Dropped => self.stored.dropped(gone.number),
        };
        noted.map_err(fault_of)
    }
}

// The fault of an outbox, by that of its file.
fn fault_of(why: StoredOutboxFault) -> HeldFault {
    match why {
        StoredOutboxFault::NoMemory => HeldFault::NoMemory,
        StoredOutboxFault::Over => HeldFault::Full,
        StoredOutboxFault::Unreadable
        | StoredOutboxFault::BadLine(_)
        | StoredOutboxFault::Unwritable
        | StoredOutboxFault::NoLine => HeldFault::Disk,
    }
}

// Whether the file with a number is in the outbox: read, given back, or its turn has not come.
fn has_file(outgoing: &Outgoing, number: u64) -> bool
    ensures { result ≡ has_file number outgoing.now }
{
    is_read(outgoing, number)
        || is_there(outgoing.returned(), number)
        || is_there(outgoing.waiting(), number)
}

// Whether it is the one that is being read.
fn is_read(outgoing: &Outgoing, number: u64) -> bool
    ensures { result ≡ is_named number outgoing.now.reading }
{
    match outgoing.reading() {
        Some(file) => file.number == number,
        None => false,
    }
}

// Whether it is one of these.
fn is_there(files: &[Waiting], number: u64) -> bool
    ensures { result ≡ list_any (has_number number) files.now }
{
    files.iter().any(|file| file.number == number)
}
