//! How a program starts: it reads its configuration and a file to be sent, and reports why it ended.
#![tactic(auto)]

mod explaining;
mod fault;
mod files;
mod paths;
mod places;
mod unread;

pub use explaining::{
    Started, push_bind_reason, push_explanation, push_text_reason, tell_explanation,
};
pub use fault::{ProgramFault, print, push_fault, tell_fault};
pub use files::{FileReader, RuntimeFiles, load_config, load_file, load_text};
pub use paths::{
    folder_of, may_be_held, push_file_reason, push_folder_reason, push_link_reason,
    push_path_reason,
};
pub use places::push_place;
pub use unread::Unread;
