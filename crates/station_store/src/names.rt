//! The names of received files, and their paths.
ghost use Rattle.std.specs.Prelude.{◌≡◌, ◌↔◌, ◌≤◌, ◌==◌, ◌||◌, IsSome, IfSome, length};
ghost use Rattle.std.specs.List.{list_any, list_all, prefix_len, slice_split};
ghost use Rattle.disk.specs.Steps.{is_slash};
ghost use Rattle.file_stores.specs.Names.{is_plain_name};
ghost use Rattle.station_store.specs.Paths.{relative, path_of, IsTaken, IsTreeName};

use crate::settings::Layout;

// A file's own name, and eight folders above it.
const MOST_PARTS: usize = 9;

/// The path below the store's folder for a name, if the name is valid in the layout.
pub fn path_of(layout: Layout, name: &[u8]) -> Option<&str>
    ensures taken { IsSome result ↔ IsTaken layout name.now }
    ensures path { IfSome result (λ path. path.now ≡ path_of layout name.now) }
{
    match layout {
        Layout::Flat => flat_path(name),
        Layout::Tree => tree_path(name),
    }
}

// The name as text, if it is a valid name for a file in the folder.
fn flat_path(name: &[u8]) -> Option<&str>
    ensures taken { IsSome result ↔ IsTaken Layout.Flat name.now }
    ensures path { IfSome result (λ path. path.now ≡ name.now) }
{
    if !is_plain(name) {
        return None;
    }
    str::from_utf8(name).ok()
}

// The path below the folder as text, if it is valid.
fn tree_path(name: &[u8]) -> Option<&str>
    ensures taken { IsSome result ↔ IsTreeName name.now }
    ensures path { IfSome result (λ path. path.now ≡ relative name.now) }
{
    let path = relative(name);
    if !has_plain_parts(path) || parts_of(path) > MOST_PARTS {
        return None;
    }
    str::from_utf8(path).ok()
}

// A name without its leading slashes.
fn relative(name: &[u8]) -> &[u8]
    ensures { result.now ≡ relative name.now }
{
    let (_, path) = name.split_at(leading_slashes(name));
    path
}

// The number of leading slashes in a name.
fn leading_slashes(name: &[u8]) -> usize
    ensures count { result ≡ prefix_len is_slash name.now }
    ensures bound { result ≤ length name.now }
{
    name.iter().take_while(|octet| **octet == b'/').count()
}

// Whether each part of a path is a name that stays in its folder.
fn has_plain_parts(path: &[u8]) -> bool
    ensures { result ≡ list_all is_plain_name (slice_split is_slash path.now) }
{
    path.split(|octet| *octet == b'/').all(is_plain)
}

// How many names a path has between its slashes.
fn parts_of(path: &[u8]) -> usize
    ensures { result ≡ length (slice_split is_slash path.now) }
{
    path.split(|octet| *octet == b'/').count()
}

// Whether the name stays in its folder.
fn is_plain(name: &[u8]) -> bool
    ensures { result ≡ is_plain_name name.now }
{
    !name.is_empty() && name != b".".as_slice() && name != b"..".as_slice() && !has_separator(name)
}

// Whether the name has a slash, or a zero octet, which would end it.
fn has_separator(name: &[u8]) -> bool
    ensures { result ≡ list_any (λ octet. octet == 47 || octet == 0) name.now }
{
    name.iter().any(|octet| *octet == b'/' || *octet == 0)
}
