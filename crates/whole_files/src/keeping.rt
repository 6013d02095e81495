//! A file is kept beside existing ones, under the first of its names that is free.
ghost use Rattle.std.specs.Prelude.{◌≡◌, ◌∷◌, None, Some, IfOk, OnErr, OnOk, string_bytes};
ghost use Rattle.disk.specs.Crash.Content.{flushed};
ghost use Rattle.disk.specs.Promise.{Changes, HoldsAfterCut, Is, IsReached, NoPath, WholeOrGone};
ghost use Rattle.disk.specs.Parts.{IsNamed, IsOpen};
ghost use Rattle.disk.specs.Steps.{folder_of};
ghost use Rattle.disk.specs.Steps.Call.{flush_folder};
ghost use Rattle.disk.specs.Steps.Step.{did};
ghost use Rattle.whole_files.specs.Links.{Ends, Keeps, LinkedFirst, LinkedNone, TakenBack};
ghost use Rattle.whole_files.specs.Wholes.{IsCopyOf, IsPartOf};

use crate::parts::write_part;
use crate::paths::{folder_of, numbered};
use disk::{Disk, Fault};
use std::alloc::Global;

// How many paths are tried: the file's own, and those with a number up to 9,999 appended.
const COPIES: u64 = 10_000;

/// Keeps octets under a path or, where there is a file already, under its first free numbered copy, and returns the
/// path that it used. The octets are written to a new part first. Parts are numbered from `next` on; afterwards `next`
/// is the number after the last one tried.
pub fn keep_file<D: Disk>(
    disk: &mut D,
    alloc: Global,
    path: &str,
    next: &mut u64,
    octets: &[u8],
) -> Result<String, Fault>
    requires { IsReached (D.done disk.old) path.now }
    ensures kept { IfOk result (λ place. Keeps path.now octets.now (Some (string_bytes place)) (D.done disk.old) (D.done disk.new)) }
    ensures not_kept { OnErr result (Keeps path.now octets.now None (D.done disk.old) (D.done disk.new)) }
    ensures copy { IfOk result (λ place. IsCopyOf path.now (string_bytes place)) }
    ensures ok { IfOk result (λ place. HoldsAfterCut (D.done disk.new) (string_bytes place) octets.now) }
{
    let part = write_part(disk, alloc, path, next, octets)?;
    link_part(disk, alloc, part.as_str(), path, octets)
}

// Gives a free name to a part that has these octets, flushed. Then removes the part's own name, and flushes the folder.
fn link_part<D: Disk>(
    disk: &mut D,
    alloc: Global,
    part: &str,
    path: &str,
    _octets: &[u8],
) -> Result<String, Fault>
    requires reached { IsReached (D.done disk.old) path.now }
    requires filled { IsOpen part.now (flushed _octets.now) (D.done disk.old) }
    requires is_part { IsPartOf path.now part.now }
    ensures changes { Changes (Is part.now) (WholeOrGone (IsCopyOf path.now) _octets.now) (D.done disk.old) (D.done disk.new) }
    ensures kept { IfOk result (λ place. Ends part.now path.now (Some (string_bytes place)) (D.done disk.old) (D.done disk.new)) }
    ensures not_kept { OnErr result (Ends part.now path.now None (D.done disk.old) (D.done disk.new)) }
    ensures copy { IfOk result (λ place. IsCopyOf path.now (string_bytes place)) }
    ensures ok { IfOk result (λ place. HoldsAfterCut (D.done disk.new) (string_bytes place) _octets.now) }
{
    let linked = link_first(disk, alloc, part, path, _octets);
    let _ = disk.remove(part);
    let place = linked?;
    settle(disk, place.as_str(), path, _octets)?;
    Ok(place)
}

// Links a part to the first copy that is free.
fn link_first<D: Disk>(
    disk: &mut D,
    alloc: Global,
    part: &str,
    path: &str,
    _octets: &[u8],
) -> Result<String, Fault>
    requires { IsOpen part.now (flushed _octets.now) (D.done disk.old) }
    ensures changes { Changes (Is part.now) (WholeOrGone (IsCopyOf path.now) _octets.now) (D.done disk.old) (D.done disk.new) }
    ensures first { IfOk result (λ place. LinkedFirst part.now path.now (string_bytes place) (D.done disk.old) (D.done disk.new)) }
    ensures none { OnErr result (LinkedNone part.now path.now (D.done disk.old) (D.done disk.new)) }
    ensures named { IfOk result (λ place. IsNamed (string_bytes place) _octets.now (D.done disk.new)) }
{
    for copy in 0..COPIES {
        let Ok(place) = numbered(alloc, path, copy) else {
            return Err(Fault::MayPass);
        };
        match disk.link(part, place.as_str()) {
            Ok(()) => return Ok(place),
            Err(Fault::Exists) => {}
            Err(fault) => return Err(fault),
        }
    }
    Err(Fault::Exists)
}

// Flushes the folder of a copy. If that fails, the copy is removed again.
fn settle<D: Disk>(disk: &mut D, place: &str, _path: &str, _octets: &[u8]) -> Result<(), Fault>
    requires copy { IsCopyOf _path.now place.now }
    requires reached { IsReached (D.done disk.old) place.now }
    requires named { IsNamed place.now _octets.now (D.done disk.old) }
    ensures changes { Changes NoPath (WholeOrGone (IsCopyOf _path.now) _octets.now) (D.done disk.old) (D.done disk.new) }
    ensures ok { OnOk result (HoldsAfterCut (D.done disk.new) place.now _octets.now) }
    ensures settled { OnOk result (D.done disk.new ≡ did (flush_folder (folder_of place.now)) ∷ D.done disk.old) }
    ensures back { OnErr result (TakenBack place.now (D.done disk.old) (D.done disk.new)) }
{
    let flushed = disk.flush_folder(folder_of(place));
    if flushed.is_err() {
        let _ = disk.remove(place);
    }
    flushed
}
