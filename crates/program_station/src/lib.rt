//! What the main thread of a program does with an entity, in turns.
#![tactic(auto)]

mod answers;
mod hand_in;
mod station;

pub use station::{REST_MS, Station};
