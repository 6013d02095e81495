//! Keeping a file: its folders are made, and it is stored as a whole.
ghost use Rattle.std.specs.Prelude.{◌≡◌, None, Some, IfOk, OnErr, OnOk, string_bytes};
ghost use Rattle.disk.specs.Promise.{HoldsAfterCut, IsReached};
ghost use Rattle.station_store.specs.Paths.{IsPlaceFor, Stores, StoresBy};

use crate::folders::{reach, refuse_folder};
use crate::settings::Clash;
use disk::{Disk, Fault};
use std::alloc::Global;
use whole_files::{keep_file, replace_file};

/// A file to be kept: its path below the store's folder, and its octets.
#[derive(Clone, Copy, Debug)]
pub struct FileToKeep<'a> {
    pub path: &'a str,
    pub octets: &'a [u8],
}

/// Keeps a file under its path, or as a numbered copy there, and returns the path of what it kept. The folders on the
/// path `known` are known to stay. Parts are numbered from `next` on; afterwards `next` is the number after the last
/// one tried.
pub fn keep_at<D: Disk>(
    disk: &mut D,
    alloc: Global,
    clash: Clash,
    known: &str,
    file: &FileToKeep<'_>,
    next: &mut u64,
) -> Result<String, Fault>
    requires { IsReached (D.done disk.old) known.now }
    ensures kept { IfOk result (λ place. Stores clash file.now.path.now file.now.octets.now (Some (string_bytes place)) (D.done disk.old) (D.done disk.new)) }
    ensures not_kept { OnErr result (Stores clash file.now.path.now file.now.octets.now None (D.done disk.old) (D.done disk.new)) }
    ensures place { IfOk result (λ place. IsPlaceFor clash file.now.path.now (string_bytes place)) }
    ensures holds { IfOk result (λ place. HoldsAfterCut (D.done disk.new) (string_bytes place) file.now.octets.now) }
    ensures reached { IfOk result (λ place. IsReached (D.done disk.new) (string_bytes place)) }
{
    let FileToKeep { path, octets } = *file;
    reach(disk, known, path)?;
    refuse_folder(disk, path)?;
    match clash {
        Clash::Replace => replace(disk, alloc, path, next, octets),
        Clash::Keep => keep(disk, alloc, path, next, octets),
    }
}

// Keeps a file, which replaces an existing one, and returns its path.
fn replace<D: Disk>(
    disk: &mut D,
    alloc: Global,
    path: &str,
    next: &mut u64,
    octets: &[u8],
) -> Result<String, Fault>
    requires { IsReached (D.done disk.old) path.now }
    ensures kept { IfOk result (λ place. StoresBy Clash.Replace path.now octets.now (Some (string_bytes place)) (D.done disk.old) (D.done disk.new)) }
    ensures not_kept { OnErr result (StoresBy Clash.Replace path.now octets.now None (D.done disk.old) (D.done disk.new)) }
    ensures place { IfOk result (λ place. IsPlaceFor Clash.Replace path.now (string_bytes place)) }
    ensures holds { IfOk result (λ place. HoldsAfterCut (D.done disk.new) (string_bytes place) octets.now) }
    ensures reached { IfOk result (λ place. IsReached (D.done disk.new) (string_bytes place)) }
{
    let Ok(place) = String::from_str(alloc, path) else {
        return Err(Fault::MayPass);
    };
    replace_file(disk, alloc, path, next, octets)?;
    Ok(place)
}

// Keeps a file under the first of its names that is free, and returns its path.
fn keep<D: Disk>(
    disk: &mut D,
    alloc: Global,
    path: &str,
    next: &mut u64,
    octets: &[u8],
) -> Result<String, Fault>
    requires { IsReached (D.done disk.old) path.now }
    ensures kept { IfOk result (λ place. StoresBy Clash.Keep path.now octets.now (Some (string_bytes place)) (D.done disk.old) (D.done disk.new)) }
    ensures not_kept { OnErr result (StoresBy Clash.Keep path.now octets.now None (D.done disk.old) (D.done disk.new)) }
    ensures place { IfOk result (λ place. IsPlaceFor Clash.Keep path.now (string_bytes place)) }
    ensures holds { IfOk result (λ place. HoldsAfterCut (D.done disk.new) (string_bytes place) octets.now) }
    ensures reached { IfOk result (λ place. IsReached (D.done disk.new) (string_bytes place)) }
{
    keep_file(disk, alloc, path, next, octets)
}
