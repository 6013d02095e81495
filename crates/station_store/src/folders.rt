//! The folders on the path of a file.
ghost use Rattle.std.specs.Prelude.{◌≡◌, true, OnOk};
ghost use Rattle.std.specs.Option.{option_copied};
ghost use Rattle.disk.specs.Promise.{IsReached, Unchanged};
ghost use Rattle.station_store.specs.Folders.{stands, stays};
ghost use Rattle.whole_files.specs.Wholes.{folder_at};

use disk::{Disk, Fault};
use whole_files::{folder_at, folder_of};

/// Makes the missing folders on the path of a file. What is there already must be a folder, not a link to one. The
/// folder above is flushed for each folder that was made, and for each that isn't on the path `known`. The folders on
/// `known` are known to stay.
pub fn reach<D: Disk>(disk: &mut D, known: &str, path: &str) -> Result<(), Fault>
    requires { IsReached (D.done disk.old) known.now }
    ensures same { Unchanged (D.done disk.old) (D.done disk.new) }
    ensures ok { OnOk result (IsReached (D.done disk.new) path.now) }
{
    for end in 0..path.len() {
        if let Some(folder) = folder_at(path, end) {
            let is_known = is_on(known, end, folder);
            reach_folder(disk, folder, is_known)?;
        }
    }
    Ok(())
}

// Whether a folder is the one on a path that ends before the slash at `end`.
fn is_on(path: &str, end: usize, folder: &str) -> bool
    ensures { result ≡ true → folder_at path.now end ≡ Some folder.now }
{
    match folder_at(path, end) {
        Some(other) => other == folder,
        None => false,
    }
}

// Makes a folder if it is missing, so that it stays. `is_known` means that the folder, if it is there, is known to
// stay.
fn reach_folder<D: Disk>(disk: &mut D, folder: &str, is_known: bool) -> Result<(), Fault>
    requires { is_known ≡ true → stays (D.done disk.old) folder.now }
    ensures same { Unchanged (D.done disk.old) (D.done disk.new) }
    ensures ok { OnOk result (stays (D.done disk.new) folder.now) }
{
    let is_made = make_missing(disk, folder)?;
    if is_known && !is_made {
        return Ok(());
    }
    disk.flush_folder(folder_of(folder))
}

// Makes a folder unless it is there, and returns whether it was made.
fn make_missing<D: Disk>(disk: &mut D, folder: &str) -> Result<bool, Fault>
    ensures same { Unchanged (D.done disk.old) (D.done disk.new) }
    ensures ok { OnOk result (stands (D.done disk.new) folder.now) }
{
    match disk.make_folder(folder) {
        Ok(()) => Ok(true),
        Err(Fault::Exists) => require_folder(disk, folder),
        Err(fault) => Err(fault),
    }
}

// Returns false if there is a folder at this path, otherwise an error.
fn require_folder<D: Disk>(disk: &mut D, folder: &str) -> Result<bool, Fault>
    ensures same { Unchanged (D.done disk.old) (D.done disk.new) }
    ensures ok { OnOk result (stands (D.done disk.new) folder.now) }
{
    match disk.is_folder(folder) {
        Ok(true) => Ok(false),
        Ok(false) => Err(Fault::Failed),
        Err(fault) => Err(fault),
    }
}

/// Returns an error if there is a folder where a file should go.
pub fn refuse_folder<D: Disk>(disk: &mut D, path: &str) -> Result<(), Fault>
    ensures { Unchanged (D.done disk.old) (D.done disk.new) }
{
    match disk.is_folder(path) {
        Ok(true) => Err(Fault::Failed),
        _ => Ok(()),
    }
}
