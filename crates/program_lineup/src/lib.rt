//! In which order the numbers of several sending lanes are used toward an entity whose receiving lanes take rising
//! numbers.
#![tactic(auto)]

mod choice;
mod counts;
pub mod laws;
mod lineup;
mod sending_lane;

pub use choice::{Choice, Standing};
pub use counts::{MOST_COUNT, better_counts, is_shared};
pub use lineup::Lineup;
pub use sending_lane::{Running, SendingLane};
