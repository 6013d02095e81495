//! The number file on disk.
ghost use Rattle.std.specs.Prelude.{◌≡◌, ◌⊎◌, None, Some, IfErr, IfOk, OnErr, OnOk, string_bytes};
ghost use Rattle.std.specs.List.{list_any};
ghost use Rattle.disk.specs.Steps.{is_slash};
ghost use Rattle.number_file.specs.Files.{Covered, Covers, Lasts, Opens, OpensNot, Reads, Writes, covered_by, fault_of};
ghost use Rattle.number_file.specs.Rounds.{cover_of, given};
ghost use Rattle.number_file.specs.declared.file.NumbersFault.TheVariants.{Unreadable, Unwritable};
ghost use Rattle.number_file.specs.declared.rounds.Cover.TheVariants as cover;

use crate::rounds::{Cover, Rounds};
use crate::texts::number_in;
use disk::Disk;
use std::alloc::Global;
use whole_files::replace_beside;

/// Why the file yields no numbers.
#[derive(Clone, Copy, Debug, PartialEq, Eq)]
pub enum NumbersFault {
    /// The file can't be read, or doesn't contain a number.
    Unreadable,
    /// The file can't be written.
    Unwritable,
    /// No number is left.
    Over,
}

/// A file with a number above every number that was given, as a line of decimal digits.
#[derive(Drop)]
pub struct NumberFile {
    alloc: Global,
    /// Its name in the disk's own folder.
    pub path: String,
    /// The rounds that the file covers.
    pub rounds: Rounds,
}

impl NumberFile {
    /// Opens the file of this name in the disk's own folder for a run, which begins at the round `first`, or at the
    /// first round that has no number below the one in the file, if that is higher. A round has `width` numbers, and
    /// `block` rounds are covered at once. The file is created if it is missing, and written at once, so that an error
    /// shows before any Put. A file that doesn't contain a number is left as it is. A name with a slash can't be
    /// written.
    pub fn open<D: Disk>(
        disk: &mut D,
        alloc: Global,
        path: String,
        first: u64,
        width: u64,
        block: u64,
    ) -> Result<NumberFile, NumbersFault>
        ensures opens { IfOk result (λ file. Opens (string_bytes path) first width block (D.done disk.old) (D.done disk.new) file.rounds) }
        ensures path { IfOk result (λ file. string_bytes file.path ≡ string_bytes path) }
        ensures not { IfErr result (λ fault. OpensNot fault (string_bytes path) first width block (D.done disk.old) (D.done disk.new)) }
    {
        let number = read_number(disk, path.as_str())?;
        let rounds = Rounds::begin(first, number, width, block);
        let Some(covered) = rounds.number_at(rounds.next) else {
            return Err(NumbersFault::Over);
        };
        write_number(disk, alloc, path.as_str(), covered)?;
        Ok(NumberFile {
            alloc,
            path,
            rounds,
        })
    }

    /// Ensures that the round of the next Put is covered, writing the file if necessary. The file is on disk when this
    /// returns.
    pub fn cover<D: Disk>(&mut self, disk: &mut D) -> Result<(), NumbersFault>
        ensures covered { OnOk result (cover_of self.new.rounds ≡ cover.Covered) }
        ensures asked { Covers (cover_of self.old.rounds) (string_bytes self.old.path) self.old.rounds (D.done disk.old) (D.done disk.new) }
        ensures lasts { OnOk result (Covered (cover_of self.old.rounds) (string_bytes self.old.path) self.old.rounds (D.done disk.new)) }
        ensures rounds { OnOk result (self.new.rounds ≡ covered_by (cover_of self.old.rounds) self.old.rounds) }
        ensures fault { IfErr result (λ fault. fault ≡ fault_of (cover_of self.old.rounds)) }
        ensures same { OnErr result (self.new.rounds ≡ self.old.rounds) }
        ensures next { self.new.rounds.next ≡ self.old.rounds.next }
        ensures path { string_bytes self.new.path ≡ string_bytes self.old.path }
    {
        match self.rounds.cover() {
            Cover::Covered => Ok(()),
            Cover::Write(round) => {
                let Some(number) = self.rounds.number_at(round) else {
                    return Err(NumbersFault::Unwritable);
                };
                write_number(disk, self.alloc, self.path.as_str(), number)?;
                self.rounds.note_written(round);
                Ok(())
            }
            Cover::Over => Err(NumbersFault::Over),
        }
    }

    /// Notes that a lane gave this round to a Put.
    pub fn note_given(&mut self, round: u64)
        ensures rounds { self.new.rounds ≡ given round self.old.rounds }
        ensures path { string_bytes self.new.path ≡ string_bytes self.old.path }
    {
        self.rounds.note_given(round);
    }
}

// The number in the file, 0 where there is no file.
fn read_number<D: Disk>(disk: &mut D, path: &str) -> Result<u64, NumbersFault>
    ensures ok { IfOk result (λ number. Reads (Some number) path.now (D.done disk.old) (D.done disk.new)) }
    ensures err { IfErr result (λ fault. (fault ≡ Unreadable) × ((D.done disk.new ≡ D.done disk.old) ⊎ Reads None path.now (D.done disk.old) (D.done disk.new))) }
{
    match disk.read(path) {
        Ok(Some(octets)) => number_in(octets.as_slice()).ok_or(NumbersFault::Unreadable),
        Ok(None) => Ok(0),
        Err(_) => Err(NumbersFault::Unreadable),
    }
}

// Replaces the file by one with this number. The disk isn't asked if memory runs out or the name has a slash.
fn write_number<D: Disk>(
    disk: &mut D,
    alloc: Global,
    path: &str,
    number: u64,
) -> Result<(), NumbersFault>
    ensures writes { Writes path.now number (D.done disk.old) (D.done disk.new) }
    ensures lasts { OnOk result (Lasts path.now number (D.done disk.new)) }
    ensures fault { IfErr result (λ fault. fault ≡ Unwritable) }
{
    if has_slash(path) {
        return Err(NumbersFault::Unwritable);
    }
    let Ok(beside) = format!(in alloc; "{path}.new") else {
        return Err(NumbersFault::Unwritable);
    };
    let Ok(text) = format!(in alloc; "{number}\n") else {
        return Err(NumbersFault::Unwritable);
    };
    replace_beside(disk, beside.as_str(), path, text.as_bytes()).map_err(
        |_| NumbersFault::Unwritable,
    )
}

// Whether a path has a slash, and so leads into a folder below.
fn has_slash(path: &str) -> bool
    ensures { result ≡ list_any is_slash path.now }
{
    path.as_bytes().iter().any(|octet| *octet == b'/')
}
