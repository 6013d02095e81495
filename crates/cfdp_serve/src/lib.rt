//! The server: one protocol entity over datagrams, which sends and receives many files at once, and does what lines of
//! commands say.
#![tactic(auto)]

mod named;
mod opening;
mod parts;
mod rooms;
mod serving;
mod setting;
mod threads;

pub use opening::Streams;
pub use server_recording::{FolderStoring, ServerFiles};
pub use serving::serve;
