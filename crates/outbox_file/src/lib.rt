//! A file with what waits in an outbox, so that it is there after a restart, wherever the machine stops.
#![tactic(auto)]

mod book;
mod file;
mod lines;
mod reading;

pub use book::{Book, Entry};
pub use file::{StoredOutbox, StoredOutboxFault};
pub use lines::Line;
pub use reading::{BadLine, bad_line_in};
