//! The folder that `cfdp_ctl watch` watches, and what is known of its files.
#![tactic(auto)]

mod ends;
mod files;
mod folder;
mod kept;
mod names;
mod reading;
mod watched;

pub use ends::{AtEnd, Given, Rest, Turn, at_end, given_again, rest_of};
pub use files::{HotFile, HotFiles, Place};
pub use folder::{
    FAILED, Found, Listing, SENT, keep_file, list, make_folders, mark_at, take_back, was_sent,
};
pub use kept::{KeptFile, KeptFiles};
pub use names::{is_left_alone, kept_name, why_name};
pub use reading::path_being_read;
pub use watched::{
    Mark, Sight, Standing, Watched, is_alike, is_renamed, is_same, next_to_send, watched_now,
};
