//! What a server keeps in files over restarts, if they were asked for: its outbox, and its numbers.
#![tactic(auto)]

mod numbers;
mod outbox;
mod puts;

pub use numbers::Numbers;
pub use outbox::{Outbox, OutboxFolder, push_withdrawn};
pub use puts::{FromOutbox, path_of, put_of};
