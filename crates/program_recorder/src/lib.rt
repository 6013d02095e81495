//! Recordings of transactions: their texts, and the folder where they are kept.
#![tactic(auto)]

mod heading;
mod keeper;
mod kept;
mod names;
mod pieces;
mod recording;
mod seen;

pub use heading::{Facts, push_heading};
pub use keeper::Keeper;
pub use kept::KeptKeys;
pub use names::{key_of_name, push_name};
pub use pieces::{PIECE_OCTETS, piece_length};
pub use recording::{Recording, first_of, recording_of};
pub use seen::{Seen, Sightings};
