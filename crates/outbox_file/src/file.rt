//! The file on a disk.
ghost use Rattle.std.specs.Prelude.{◌≡◌, ◌≢◌, ◌⊎◌, ◌-◌, ◌^◌, ◌&&◌, false, true, Err, IfOk, None, Ok, OnOk, Some, string_bytes};
ghost use Rattle.std.specs.List.{list_any};
ghost use Rattle.disk.specs.Crash.Content.{flushed};
ghost use Rattle.disk.specs.Parts.{IsKept};
ghost use Rattle.disk.specs.Promise.{Changes, Is, Whole};
ghost use Rattle.disk.specs.Steps.{is_slash};
ghost use Rattle.outbox_file.specs.Books.{after, value};
ghost use Rattle.outbox_file.specs.Files.{IsMended, IsPlainBook, IsStored, KeptAside, Notes, NotesLine, Opens, Reads, beside, fault_at, queued_entry};
ghost use Rattle.outbox_file.specs.Texts.{IsPlain, bad_line_in, book_in, is_line, is_whole, line_text};
ghost use Rattle.outbox_file.specs.declared.lines.Line.TheVariants as line;

use crate::book::{Book, Entry};
use crate::lines::{Line, push_line};
use crate::reading::{BadLine, bad_line_in, book_by, book_text, is_whole};
use cfdp_types::Octets;
use disk::{Disk, Fault};
use std::alloc::Global;
use std::marker::Model;
use whole_files::{keep_file, replace_beside};

// A file may grow to this many times the length that it had when it was written as a whole.
const GROWTH: usize = 10;

// A file that is shorter counts as this long.
const LEAST_OCTETS: usize = 4_096;

/// Why nothing is noted.
#[derive(Clone, Copy, Debug, PartialEq, Eq)]
pub enum StoredOutboxFault {
    /// The file can't be read.
    Unreadable,
    /// The file has a line that can't be parsed; this is the first.
    BadLine(BadLine),
    /// The file can't be written.
    Unwritable,
    /// The words aren't a line, because they have a line feed or a zero octet.
    NoLine,
    /// No number is left.
    Over,
    NoMemory,
}

/// A file with what waits in an outbox, and what is under way from there. Each line is on the disk when the call that
/// notes it returns. It is the disk's open file, so nothing else may use the disk.
#[derive(Drop)]
pub struct StoredOutbox<D: Disk + Drop> {
    disk: D,
    alloc: Global,
    path: String,
    book: Book,
    // whether it is known what is on the disk: the last line could be written
    is_sound: bool,
    size: Size,
}

// The octets of the file, and how many it may have before it is written as a whole again.
#[derive(Clone, Copy)]
struct Size {
    octets: usize,
    most: usize,
}

impl Size {
    // The size of a file that was written as a whole.
    fn of_whole(octets: usize) -> Size {
        Size {
            octets,
            most: octets.max(LEAST_OCTETS).saturating_mul(GROWTH),
        }
    }

    // The size with more octets.
    fn with(self, more: usize) -> Size {
        Size {
            octets: self.octets.saturating_add(more),
            most: self.most,
        }
    }

    fn is_small(self) -> bool {
        self.octets <= self.most
    }
}

impl<D: Disk + Drop> Model for StoredOutbox<D> {
    ghost use Rattle.std.specs.Prelude.{◌≡◌, true, string_bytes};
    ghost use Rattle.outbox_file.specs.Books.{value};
    ghost use Rattle.outbox_file.specs.Files.{FileValue, IsPlainBook, IsStored};

    ghost Value = { FileValue };

    ghost view = { λ f. record { done = D.done f.disk; path = string_bytes f.path; book = value f.book; is_sound = f.is_sound } };

    ghost invariant = { λ f. IsPlainBook (value f.book) × (f.is_sound ≡ true → IsStored (string_bytes f.path) (value f.book) (D.done f.disk)) };
}

impl<D: Disk + Drop> StoredOutbox<D> {
    /// Opens the file of this name in the disk's own folder: reads it, and writes what it says again as a whole, so
    /// that an error shows before anything is queued. If there is no file, nothing was queued yet. What follows the
    /// last line feed is ignored, and so is a line with a zero octet: a power cut tore it. If another line can't be
    /// parsed, the file is left as it is; or, with `mends`, its octets are kept beside it, and it goes on with what its
    /// other lines say. A name with a slash can't be written.
    pub fn open(
        disk: D,
        alloc: Global,
        path: String,
        mends: bool,
    ) -> Result<StoredOutbox<D>, StoredOutboxFault>
        ensures { IfOk result (λ file. Opens mends (string_bytes path) (D.done disk) file) }
    {
        let mut disk = disk;
        let book = read_book(&mut disk, alloc, path.as_str(), mends)?;
        let Ok(text) = book_text(alloc, &book) else {
            return Err(StoredOutboxFault::NoMemory);
        };
        write_whole(&mut disk, alloc, path.as_str(), text.as_slice())?;
        Ok(StoredOutbox {
            disk,
            alloc,
            path,
            book,
            is_sound: true,
            size: Size::of_whole(text.len()),
        })
    }

    /// The files that were queued and have neither ended nor been dropped, in the order in which they were queued.
    pub fn entries(&self) -> &[Entry]
        ensures { result.now ≡ self.now.book.entries }
    {
        self.book.entries.as_slice()
    }

    /// The numbers of the files that began.
    pub fn begun(&self) -> &[u64]
        ensures { result.now ≡ self.now.book.begun }
    {
        self.book.begun.as_slice()
    }

    /// The number that the next file gets.
    pub fn next(&self) -> u64
        ensures { result ≡ self.now.book.next }
    {
        self.book.next
    }

    /// Notes that a file waits since a moment, in milliseconds since the start of 1970, by the words of its command.
    /// Returns its number.
    pub fn queued(&mut self, since: u64, words: &[u8]) -> Result<u64, StoredOutboxFault>
        ensures number { IfOk result (λ number. number ≡ self.old.book.next) }
        ensures over { self.old.book.next ≡ 2 ^ 64 - 1 → result ≡ Err StoredOutboxFault.Over }
        ensures no_line { (is_line words.now && is_whole words.now) ≡ false
            → (result ≡ Err StoredOutboxFault.NoLine) ⊎ (result ≡ Err StoredOutboxFault.Over) }
        ensures notes { NotesLine (line.Queued (queued_entry self.old.book.next since words.now)) self.old result self.new }
    {
        let number = self.book.next;
        if number == u64::MAX {
            return Err(StoredOutboxFault::Over);
        }
        if !is_line(words) || !is_whole(words) {
            return Err(StoredOutboxFault::NoLine);
        }
        let Ok(words) = Octets::from_slice(self.alloc, words) else {
            return Err(StoredOutboxFault::NoMemory);
        };
        self.note(Line::Queued(Entry {
            number,
            since,
            words,
        }))?;
        Ok(number)
    }

    /// Notes that the file with a number is under way.
    pub fn began(&mut self, number: u64) -> Result<(), StoredOutboxFault>
        ensures { NotesLine (line.Began number) self.old result self.new }
    {
        self.note(Line::Began(number))
    }

    /// Notes that the transaction of the file with a number ended.
    pub fn ended(&mut self, number: u64) -> Result<(), StoredOutboxFault>
        ensures { NotesLine (line.Ended number) self.old result self.new }
    {
        self.note(Line::Ended(number))
    }

    /// Notes that the file with a number was given up, or taken out.
    pub fn dropped(&mut self, number: u64) -> Result<(), StoredOutboxFault>
        ensures { NotesLine (line.Dropped number) self.old result self.new }
    {
        self.note(Line::Dropped(number))
    }

    // Notes a line: appends it, or, if the file has grown too long or what it has isn't known, writes all lines anew.
    fn note(&mut self, line: Line) -> Result<(), StoredOutboxFault>
        requires { IsPlain line }
        ensures { NotesLine line self.old result self.new }
    {
        if self.book.reserve().is_err() {
            return Err(StoredOutboxFault::NoMemory);
        }
        let mut text = Vec::new(self.alloc);
        if push_line(self.alloc, &mut text, &line).is_err() {
            return Err(StoredOutboxFault::NoMemory);
        }
        let grown = self.size.with(text.len());
        let appends = self.is_sound && grown.is_small();
        self.is_sound = false;
        let added = AddedLine {
            path: self.path.as_str(),
            book: &self.book,
            line: &line,
            text: text.as_slice(),
        };
        self.size = put_line(&mut self.disk, self.alloc, &added, appends, grown)?;
        self.book.note(line);
        self.is_sound = true;
        Ok(())
    }
}

// Whether words have no line feed.
fn is_line(words: &[u8]) -> bool
    ensures { result ≡ is_line words.now }
{
    words.iter().all(|octet| *octet != b'\n')
}

// What the file says; if there is none, nothing was queued yet.
fn read_book<D: Disk>(
    disk: &mut D,
    alloc: Global,
    path: &str,
    mends: bool,
) -> Result<Book, StoredOutboxFault>
    ensures reads { IfOk result (λ book. Reads mends path.now (value book) (D.done disk.old) (D.done disk.new)) }
    ensures mended { mends ≡ true → (bad : BadLine) → result ≢ Err (StoredOutboxFault.BadLine bad) }
{
    match disk.read(path) {
        Ok(Some(text)) => match book_by(alloc, text.as_slice(), false) {
            Ok(Some(book)) => Ok(book),
            Ok(None) => mended_book(disk, alloc, path, text.as_slice(), mends),
            Err(_) => Err(StoredOutboxFault::NoMemory),
        },
        Ok(None) => Ok(Book::new(alloc)),
        Err(_) => Err(StoredOutboxFault::Unreadable),
    }
}

// What a text says without the lines that can't be parsed, once its octets are kept beside the file.
fn mended_book<D: Disk>(
    disk: &mut D,
    alloc: Global,
    path: &str,
    text: &[u8],
    mends: bool,
) -> Result<Book, StoredOutboxFault>
    requires { book_in text.now ≡ None }
    ensures mended { IfOk result (λ book. IsMended mends path.now (Some text.now) (value book) (D.done disk.old) (D.done disk.new)) }
    ensures bad { mends ≡ false → (result ≡ Err StoredOutboxFault.NoMemory)
        ⊎ (result ≡ Err (fault_at (bad_line_in text.now))) }
    ensures not_bad { mends ≡ true → (bad : BadLine) → result ≢ Err (StoredOutboxFault.BadLine bad) }
{
    if !mends {
        return Err(bad_line_of(alloc, text));
    }
    keep_aside(disk, alloc, path, text)?;
    match book_by(alloc, text, true) {
        Ok(Some(book)) => Ok(book),
        Ok(None) => Err(StoredOutboxFault::Unreadable),
        Err(_) => Err(StoredOutboxFault::NoMemory),
    }
}

// The fault of a text with a line that can't be parsed.
fn bad_line_of(alloc: Global, text: &[u8]) -> StoredOutboxFault
    ensures { (result ≡ StoredOutboxFault.NoMemory) ⊎ (result ≡ fault_at (bad_line_in text.now)) }
{
    match bad_line_in(alloc, text) {
        Ok(Some(bad)) => StoredOutboxFault::BadLine(bad),
        Ok(None) => StoredOutboxFault::Unreadable,
        Err(_) => StoredOutboxFault::NoMemory,
    }
}

// Keeps the octets of a file beside it.
fn keep_aside<D: Disk>(
    disk: &mut D,
    alloc: Global,
    path: &str,
    text: &[u8],
) -> Result<(), StoredOutboxFault>
    ensures aside { OnOk result (KeptAside path.now text.now (D.done disk.old) (D.done disk.new)) }
    ensures fault { (result ≡ Ok tt) ⊎ ((result ≡ Err StoredOutboxFault.NoMemory) ⊎ (result ≡ Err StoredOutboxFault.Unwritable)) }
{
    let Ok(aside) = format!(in alloc; "{path}.bad") else {
        return Err(StoredOutboxFault::NoMemory);
    };
    if has_slash(aside.as_str()) {
        return Err(StoredOutboxFault::Unwritable);
    }
    let mut next = 0;
    match keep_file(disk, alloc, aside.as_str(), &mut next, text) {
        Ok(_) => Ok(()),
        Err(_) => Err(StoredOutboxFault::Unwritable),
    }
}

// A line that is added to a file: the file's path and what it says before, and the line with its text.
#[derive(Clone, Copy)]
struct AddedLine<'a> {
    path: &'a str,
    book: &'a Book,
    line: &'a Line,
    text: &'a [u8],
}

// Writes a line after the others, or with all of them anew. Returns the size of the file.
fn put_line<D: Disk>(
    disk: &mut D,
    alloc: Global,
    added: &AddedLine<'_>,
    appends: bool,
    grown: Size,
) -> Result<Size, StoredOutboxFault>
    requires all_plain { IsPlainBook (value added.now.book.now) }
    requires plain { IsPlain added.now.line.now }
    requires is_text { added.now.text.now ≡ line_text added.now.line.now }
    requires stored { appends ≡ true → IsStored added.now.path.now (value added.now.book.now) (D.done disk.old) }
    ensures stored { OnOk result (IsStored added.now.path.now (after added.now.line.now (value added.now.book.now)) (D.done disk.new)) }
    ensures notes { Notes added.now.path.now (value added.now.book.now) (after added.now.line.now (value added.now.book.now)) (D.done disk.old) (D.done disk.new) }
{
    if appends {
        return match append_line(disk, added) {
            Ok(()) => Ok(grown),
            Err(_) => Err(StoredOutboxFault::Unwritable),
        };
    }
    let octets = rewrite(disk, alloc, added)?;
    Ok(Size::of_whole(octets))
}

// Writes a line after the others.
fn append_line<D: Disk>(disk: &mut D, added: &AddedLine<'_>) -> Result<(), Fault>
    requires stored { IsStored added.now.path.now (value added.now.book.now) (D.done disk.old) }
    requires plain { IsPlain added.now.line.now }
    requires is_text { added.now.text.now ≡ line_text added.now.line.now }
    ensures stored { OnOk result (IsStored added.now.path.now (after added.now.line.now (value added.now.book.now)) (D.done disk.new)) }
    ensures notes { Notes added.now.path.now (value added.now.book.now) (after added.now.line.now (value added.now.book.now)) (D.done disk.old) (D.done disk.new) }
{
    disk.append(added.text)?;
    disk.flush()
}

// Writes the whole file anew: what it said before, and the line that is added. Returns its octets.
fn rewrite<D: Disk>(
    disk: &mut D,
    alloc: Global,
    added: &AddedLine<'_>,
) -> Result<usize, StoredOutboxFault>
    requires all_plain { IsPlainBook (value added.now.book.now) }
    requires plain { IsPlain added.now.line.now }
    requires is_text { added.now.text.now ≡ line_text added.now.line.now }
    ensures stored { OnOk result (IsStored added.now.path.now (after added.now.line.now (value added.now.book.now)) (D.done disk.new)) }
    ensures notes { Notes added.now.path.now (value added.now.book.now) (after added.now.line.now (value added.now.book.now)) (D.done disk.old) (D.done disk.new) }
{
    let Ok(mut whole) = book_text(alloc, added.book) else {
        return Err(StoredOutboxFault::NoMemory);
    };
    if whole.extend_from_slice(added.text).is_err() {
        return Err(StoredOutboxFault::NoMemory);
    }
    write_whole(disk, alloc, added.path, whole.as_slice())?;
    Ok(whole.len())
}

// Stores a text as the whole file, which is open from then on. Without memory nothing is asked of the disk.
fn write_whole<D: Disk>(
    disk: &mut D,
    alloc: Global,
    path: &str,
    text: &[u8],
) -> Result<(), StoredOutboxFault>
    ensures changes { Changes (Is (beside path.now)) (Whole path.now text.now) (D.done disk.old) (D.done disk.new) }
    ensures open { OnOk result (IsKept (beside path.now) path.now (flushed text.now) (D.done disk.new)) }
{
    if has_slash(path) {
        return Err(StoredOutboxFault::Unwritable);
    }
    let Ok(beside) = format!(in alloc; "{path}.new") else {
        return Err(StoredOutboxFault::NoMemory);
    };
    replace_beside(disk, beside.as_str(), path, text).map_err(|_| StoredOutboxFault::Unwritable)
}

// Whether a path has a slash, and so leads into another folder.
fn has_slash(path: &str) -> bool
    ensures { result ≡ list_any is_slash path.now }
{
    path.as_bytes().iter().any(|octet| *octet == b'/')
}
