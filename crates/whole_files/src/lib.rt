//! A file is stored as a whole or not at all.
#![tactic(auto)]

mod keeping;
mod parts;
mod paths;
mod storing;

pub use keeping::keep_file;
pub use parts::{fill_part, new_part, write_part};
pub use paths::{folder_at, folder_of};
pub use storing::{put_part, replace_beside, replace_file};
