//! The folders of a path, and the paths of copies.
ghost use Rattle.std.specs.Prelude.{◌≡◌, ◌<◌, true, length, slice_index, IfOk, string_bytes};
ghost use Rattle.std.specs.Option.{option_copied};
ghost use Rattle.disk.specs.Steps.{folder_of, is_slash};
ghost use Rattle.whole_files.specs.Wholes.{folder_at, numbered};

use std::alloc::{AllocError, Global};

/// Returns the part of a path before its last slash: the folder that the path is in, or the empty path for the disk's
/// own folder.
pub fn folder_of(path: &str) -> &str
    ensures { result.now ≡ folder_of path.now }
{
    match path.rsplit_once('/') {
        Some((folder, _)) => folder,
        None => "",
    }
}

/// The folder on a file's path whose name ends before the slash at `end`, if there is a slash.
pub fn folder_at(path: &str, end: usize) -> Option<&str>
    ensures { option_copied result ≡ folder_at path.now end }
{
    if is_slash_at(path.as_bytes(), end) {
        path.get(..end)
    } else {
        None
    }
}

// Whether the octet at this place is a slash; false where there is no octet.
fn is_slash_at(octets: &[u8], at: usize) -> bool
    ensures slash { result ≡ is_slash (slice_index octets.now at) }
    ensures inside { result ≡ true → at < length octets.now }
{
    at < octets.len() && octets[at] == b'/'
}

/// The path of a copy: for copy 0 the path itself, otherwise the path with a dot and the number appended.
pub(crate) fn numbered(alloc: Global, path: &str, copy: u64) -> Result<String, AllocError>
    ensures { IfOk result (λ place. string_bytes place ≡ numbered path.now copy) }
{
    if copy == 0 {
        Ok(String::from_str(alloc, path)?)
    } else {
        Ok(format!(in alloc; "{path}.{copy}")?)
    }
}
