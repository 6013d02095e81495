//! An outbox in memory and its file, which say the same.
#![tactic(auto)]

mod held;
mod restoring;

pub use held::{Gone, HeldFault, HeldOutbox, Way};
pub use restoring::{file_of, restore_one};
