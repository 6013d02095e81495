ghost use Rattle.std.specs.Prelude.{◌≡◌, ◌↔◌, ◌==◌, ◌||◌, IsSome, IfSome, OnOk};
ghost use Rattle.std.specs.List.{list_any};
ghost use Rattle.disk.specs.Promise.{HoldsAfterCut};
ghost use Rattle.file_stores.specs.Names.{IsFileName, is_plain_name};
ghost use Rattle.whole_files.specs.PartSteps.{Replaces};

use crate::filestore::{Filestore, StoreFault};
use disk::Disk;
use std::alloc::Global;
use std::marker::Model;
use whole_files::replace_file;

/// A store that keeps each file in the folder of a disk, under its name, replacing an existing file as a whole. The
/// octets are written to a part in that folder, flushed, and renamed once they are complete, so that no incomplete
/// file is seen under its name. Then the folder is flushed, and only after that the deposit has succeeded. Where the
/// folder can't be flushed, the deposit fails although the file has its name already. A part's name is `.part-` and a
/// number. It is unused in the folder, and not the file's own; but it is not reserved, and a received file may have
/// such a name too.
#[derive(Drop)]
pub struct FolderStore<D: Disk + Drop> {
    disk: D,
    alloc: Global,
    next_part: u64,
    calls: u64,
    failures: u64,
}

impl<D: Disk + Drop> Model for FolderStore<D> {
    ghost use Rattle.std.specs.Prelude.{◌≤◌};
    ghost use Rattle.file_stores.specs.FolderStore.{FolderValue};

    ghost Value = { FolderValue };

    ghost view = { λ s. record { done = D.done s.disk; calls = s.calls; failures = s.failures } };

    ghost invariant = { λ s. s.failures ≤ s.calls };
}

impl<D: Disk + Drop> FolderStore<D> {
    /// A store in the folder of a disk, which must exist when a file is deposited.
    pub fn new(disk: D, alloc: Global) -> FolderStore<D>
        ensures { result ≡ record { done = D.done disk; calls = 0; failures = 0 } }
    {
        FolderStore {
            disk,
            alloc,
            next_part: 0,
            calls: 0,
            failures: 0,
        }
    }
}

impl<D: Disk + Drop> Filestore for FolderStore<D> {
    ghost use Rattle.file_stores.specs.FolderStore.{FolderDeposits};

    ghost tried = { λ store. store.calls };

    ghost failed = { λ store. store.failures };

    ghost deposits = { FolderDeposits };

    fn deposit(&mut self, name: &[u8], octets: &[u8]) -> Result<(), StoreFault> {
        self.calls += 1;
        let outcome = keep(
            &mut self.disk,
            self.alloc,
            &mut self.next_part,
            name,
            octets,
        );
        if outcome.is_err() {
            self.failures += 1;
        }
        outcome
    }

    fn calls(&self) -> u64 {
        self.calls
    }

    fn failures(&self) -> u64 {
        self.failures
    }
}

// The name as text, if it is a valid name for a file in the folder.
fn file_name(name: &[u8]) -> Option<&str>
    ensures valid { IsSome result ↔ IsFileName name.now }
    ensures same { IfSome result (λ text. text.now ≡ name.now) }
{
    if !is_plain(name) {
        return None;
    }
    str::from_utf8(name).ok()
}

// Whether the name stays in its folder.
fn is_plain(name: &[u8]) -> bool
    ensures { result ≡ is_plain_name name.now }
{
    !name.is_empty() && name != b".".as_slice() && name != b"..".as_slice() && !has_separator(name)
}

// Whether the name has a slash, or a zero octet, which would end it.
fn has_separator(name: &[u8]) -> bool
    ensures { result ≡ list_any (λ octet. octet == 47 || octet == 0) name.now }
{
    name.iter().any(|octet| *octet == b'/' || *octet == 0)
}

// Stores a file in the folder, under its name. Parts are numbered from `next` on.
fn keep<D: Disk>(
    disk: &mut D,
    alloc: Global,
    next: &mut u64,
    name: &[u8],
    octets: &[u8],
) -> Result<(), StoreFault>
    ensures ok { OnOk result (IsFileName name.now) }
    ensures bad_name { (result ≡ Err StoreFault.BadName) ↔ ¬ (IsFileName name.now) }
    ensures holds { OnOk result (HoldsAfterCut (D.done disk.new) name.now octets.now) }
    ensures stores { Replaces name.now octets.now (D.done disk.old) (D.done disk.new) }
{
    let Some(path) = file_name(name) else {
        return Err(StoreFault::BadName);
    };
    match replace_file(disk, alloc, path, next, octets) {
        Ok(()) => Ok(()),
        Err(_) => Err(StoreFault::Failed),
    }
}
