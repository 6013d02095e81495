//! Writes the events of a journal as the lines of a script.
#![tactic(auto)]

mod events;
pub mod laws;
mod puts;
mod rows;

pub use events::push_event;
pub use puts::PIECE_OCTETS;
pub use rows::{push_first, push_take};
