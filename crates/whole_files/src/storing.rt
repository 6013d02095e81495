//! A file is stored by way of a part, so that either the whole file is found or what was there before.
ghost use Rattle.std.specs.Prelude.{◌≡◌, ◌≢◌, [], OnOk};
ghost use Rattle.disk.specs.Crash.Content.{written, flushed};
ghost use Rattle.disk.specs.Promise.{Changes, HoldsAfterCut, Is, IsReached, NothingNew, Whole};
ghost use Rattle.disk.specs.Parts.{IsKept, IsOpen};
ghost use Rattle.whole_files.specs.PartSteps.{NoneLeft, Replaces};

use crate::parts::{fill_part, write_part};
use crate::paths::folder_of;
use disk::{Disk, Fault};
use std::alloc::Global;

/// Stores octets under a path, by way of a new part beside it, and replaces the file there, if any. Parts are numbered
/// from `next` on; afterwards `next` is the number after the last one tried.
pub fn replace_file<D: Disk>(
    disk: &mut D,
    alloc: Global,
    path: &str,
    next: &mut u64,
    octets: &[u8],
) -> Result<(), Fault>
    requires { IsReached (D.done disk.old) path.now }
    ensures stores { Replaces path.now octets.now (D.done disk.old) (D.done disk.new) }
    ensures ok { OnOk result (HoldsAfterCut (D.done disk.new) path.now octets.now) }
{
    let part = write_part(disk, alloc, path, next, octets)?;
    put_part(disk, part.as_str(), path, octets)
}

/// Stores octets under a path, by way of the named part, and replaces the file there, if any. A part that an earlier
/// try left is removed first. From then on the stored file is the disk's open file.
pub fn replace_beside<D: Disk>(
    disk: &mut D,
    part: &str,
    path: &str,
    octets: &[u8],
) -> Result<(), Fault>
    requires apart { path.now ≢ part.now }
    requires reached { IsReached (D.done disk.old) path.now }
    ensures changes { Changes (Is part.now) (Whole path.now octets.now) (D.done disk.old) (D.done disk.new) }
    ensures ok { OnOk result (HoldsAfterCut (D.done disk.new) path.now octets.now) }
    ensures open { OnOk result (IsKept part.now path.now (flushed octets.now) (D.done disk.new)) }
{
    renew(disk, part)?;
    fill_part(disk, part, octets)?;
    put_part(disk, part, path, octets)
}

// Creates a part, and replaces one that an earlier try left.
fn renew<D: Disk>(disk: &mut D, part: &str) -> Result<(), Fault>
    ensures changes { Changes (Is part.now) NothingNew (D.done disk.old) (D.done disk.new) }
    ensures ok { OnOk result (IsOpen part.now (written []) (D.done disk.new)) }
{
    match disk.create(part) {
        Ok(()) => Ok(()),
        Err(Fault::Exists) => {
            disk.remove(part)?;
            disk.create(part)
        }
        Err(fault) => Err(fault),
    }
}

/// Renames a part, which has these octets flushed, to a path, replacing the file there, if any. Then flushes the path's
/// folder. If the rename fails, the part is removed.
pub fn put_part<D: Disk>(disk: &mut D, part: &str, path: &str, _octets: &[u8]) -> Result<(), Fault>
    requires apart { path.now ≢ part.now }
    requires reached { IsReached (D.done disk.old) path.now }
    requires filled { IsOpen part.now (flushed _octets.now) (D.done disk.old) }
    ensures changes { Changes (Is part.now) (Whole path.now _octets.now) (D.done disk.old) (D.done disk.new) }
    ensures none_left { NoneLeft part.now path.now (D.done disk.new) }
    ensures ok { OnOk result (HoldsAfterCut (D.done disk.new) path.now _octets.now) }
    ensures open { OnOk result (IsKept part.now path.now (flushed _octets.now) (D.done disk.new)) }
{
    let named = disk.rename(part, path);
    if named.is_err() {
        let _ = disk.remove(part);
        return named;
    }
    disk.flush_folder(folder_of(path))
}
