//! The part of a file: a new file beside it, which is written before it gets the file's name.
ghost use Rattle.std.specs.Prelude.{◌≡◌, ◌⊎◌, [], OnOk, IfOk, OnErr, string_bytes};
ghost use Rattle.disk.specs.Crash.Content.{written, flushed};
ghost use Rattle.disk.specs.Promise.{Changes, Is, NothingNew};
ghost use Rattle.disk.specs.Parts.{IsOpen};
ghost use Rattle.whole_files.specs.PartSteps.{Began, GivenUp, MadeNew, MadeNone, TakesAway};
ghost use Rattle.whole_files.specs.Wholes.{part_path};

use crate::paths::folder_of;
use disk::{Disk, Fault};
use std::alloc::{AllocError, Global};

// How many names are tried for a part.
const PART_NAMES: u64 = 1_000_000;

/// Creates a part beside a path, under the first of its names that is free, and returns its path. Names are numbered
/// from `next` on; afterwards `next` is the number after the last one tried. If a million of them are taken, the call
/// fails, and a later call goes on from there.
pub fn new_part<D: Disk>(
    disk: &mut D,
    alloc: Global,
    path: &str,
    next: &mut u64,
) -> Result<String, Fault>
    ensures opened { IfOk result (λ part. IsOpen (string_bytes part) (written []) (D.done disk.new)) }
    ensures made { IfOk result (λ part. MadeNew path.now (string_bytes part) (D.done disk.old) (D.done disk.new)) }
    ensures none { OnErr result (MadeNone path.now (D.done disk.old) (D.done disk.new)) }
{
    for _ in 0..PART_NAMES {
        let Ok(part) = part_path(alloc, folder_of(path), *next) else {
            return Err(Fault::MayPass);
        };
        *next = next.wrapping_add(1);
        if part.as_str() == path {
            continue;
        }
        match disk.create(part.as_str()) {
            Ok(()) => return Ok(part),
            Err(Fault::Exists) => {}
            Err(fault) => return Err(fault),
        }
    }
    Err(Fault::MayPass)
}

// The path of a part in a folder.
fn part_path(alloc: Global, folder: &str, number: u64) -> Result<String, AllocError>
    ensures { IfOk result (λ part. string_bytes part ≡ part_path folder.now number) }
{
    if folder.is_empty() {
        Ok(format!(in alloc; ".part-{number}")?)
    } else {
        Ok(format!(in alloc; "{folder}/.part-{number}")?)
    }
}

/// Writes octets to the open file and flushes it. Where that fails, the part is removed.
pub fn fill_part<D: Disk>(disk: &mut D, part: &str, octets: &[u8]) -> Result<(), Fault>
    requires { IsOpen part.now (written []) (D.done disk.old) }
    ensures changes { Changes (Is part.now) NothingNew (D.done disk.old) (D.done disk.new) }
    ensures ok { OnOk result (IsOpen part.now (flushed octets.now) (D.done disk.new)) }
    ensures away { OnErr result (TakesAway part.now (D.done disk.new)) }
{
    let filled = fill(disk, part, octets);
    if filled.is_err() {
        let _ = disk.remove(part);
    }
    filled
}

// Writes octets to the open file, and flushes it.
fn fill<D: Disk>(disk: &mut D, _part: &str, octets: &[u8]) -> Result<(), Fault>
    requires { IsOpen _part.now (written []) (D.done disk.old) }
    ensures changes { Changes (Is _part.now) NothingNew (D.done disk.old) (D.done disk.new) }
    ensures ok { OnOk result (IsOpen _part.now (flushed octets.now) (D.done disk.new)) }
{
    disk.append(octets)?;
    disk.flush()?;
    Ok(())
}

/// Writes and flushes octets to a new part beside a path, and returns the part's path.
pub fn write_part<D: Disk>(
    disk: &mut D,
    alloc: Global,
    path: &str,
    next: &mut u64,
    octets: &[u8],
) -> Result<String, Fault>
    ensures opened { IfOk result (λ part. IsOpen (string_bytes part) (flushed octets.now) (D.done disk.new)) }
    ensures began { IfOk result (λ part. Began path.now (string_bytes part) NothingNew (D.done disk.old) (D.done disk.new)) }
    ensures none { OnErr result (MadeNone path.now (D.done disk.old) (D.done disk.new) ⊎ GivenUp path.now (D.done disk.old) (D.done disk.new)) }
{
    let part = new_part(disk, alloc, path, next)?;
    fill_part(disk, part.as_str(), octets)?;
    Ok(part)
}
