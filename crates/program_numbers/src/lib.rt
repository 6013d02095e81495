//! The transaction numbers of a program's run, kept in a file.
#![tactic(auto)]

mod held;
mod reasons;

pub use held::{HeldNumbers, Puts};
pub use reasons::push_numbers_reason;
