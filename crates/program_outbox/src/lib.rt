//! Files that wait until a sending lane of their user is idle, and those on their way there.
#![tactic(auto)]

mod outbox;
mod outgoing;
mod windows;

pub use outbox::{MOST_FILES, Outbox, OutboxFault, OutboxFile, Stop, Waiting};
pub use outgoing::Outgoing;
pub use windows::{Window, Windows};
