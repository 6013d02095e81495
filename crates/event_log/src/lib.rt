//! The file that events are appended to, and the thread that writes it.
#![tactic(auto)]

mod file;
mod lines;
mod queue;
mod writer;

pub use file::LogFile;
pub use lines::LogLines;
pub use queue::{LogQueue, LogState};
pub use writer::LogFiles;
