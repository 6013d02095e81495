//! The server's sending lanes: which files of the outbox can leave in which of them, what the outbox began there, and
//! where files wait for each other.
#![tactic(auto)]

mod begun;
mod lane_notes;
mod readiness;

pub use begun::Begun;
pub use lane_notes::{hints_of, push_hints};
pub use readiness::{Readiness, Skip};
