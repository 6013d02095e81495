//! Names of files in the folder, and those under which they are kept.
ghost use Rattle.std.specs.Prelude.{◌≡◌, ◌++◌, IfOk, codes, string_bytes};
ghost use Rattle.ctl_folder.specs.Names.{is_left_alone, kept_name, why_name};

use std::alloc::{AllocError, Global};

/// Whether a file with this name is left alone: the name begins with a dot.
pub fn is_left_alone(name: &str) -> bool
    ensures { result ≡ is_left_alone name.now }
{
    match name.as_bytes() {
        [first, ..] => *first == b'.',
        [] => false,
    }
}

/// The name under which a file is kept after it has ended: its own, followed by a dot and the number if that is two or
/// more.
pub fn kept_name(alloc: Global, name: &str, number: u64) -> Result<String, AllocError>
    ensures { IfOk result (λ text. string_bytes text ≡ kept_name number name.now) }
{
    if number < 2 {
        String::from_str(alloc, name)
    } else {
        format!(in alloc; "{name}.{number}")
    }
}

/// The name of the file that says why another one with this name wasn't sent.
pub fn why_name(alloc: Global, name: &str) -> Result<String, AllocError>
    ensures { IfOk result (λ text. string_bytes text ≡ why_name name.now) }
{
    format!(in alloc; "{name}.why")
}
