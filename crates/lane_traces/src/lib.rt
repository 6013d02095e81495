//! Traces: the progress of a lane's transaction, and its events.
#![tactic(auto)]

mod events;
pub mod laws;
mod traced;

pub use events::events_of;
pub use traced::{Traced, how_far};
