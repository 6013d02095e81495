//! Paths in a station's file.
ghost use Rattle.std.specs.Prelude.{◌≡◌, IfOk, string_bytes};
ghost use Rattle.station_config.specs.Station.{is_absolute, path_from};

use std::alloc::{AllocError, Global};

/// What a path in a file means: an absolute path itself, and any other one from the file's folder.
pub fn path_from(alloc: Global, file: &str, path: &str) -> Result<String, AllocError>
    ensures { IfOk result (λ whole. string_bytes whole ≡ path_from file.now path.now) }
{
    if is_absolute(path) {
        return String::from_str(alloc, path);
    }
    match file.rsplit_once('/') {
        Some((folder, _)) => format!(in alloc; "{folder}/{path}"),
        None => String::from_str(alloc, path),
    }
}

fn is_absolute(path: &str) -> bool
    ensures { result ≡ is_absolute path.now }
{
    match path.as_bytes() {
        [b'/', ..] => true,
        _ => false,
    }
}
