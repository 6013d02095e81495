//! Which transactions the server records, the thread that records them, and what the server's threads do with files.
#![tactic(auto)]

mod files;
mod recorder;
mod recording;

pub use files::{FolderStoring, ServerFiles};
pub use recorder::{Recorder, Ties};
pub use recording::{Book, Watched};
