//! A file that says where the numbers of the next run begin, so that none is given twice, wherever the machine stops.
#![tactic(auto)]

mod file;
mod laws;
mod rounds;
mod texts;

pub use file::{NumberFile, NumbersFault};
pub use laws::{lanes_are_placed, numbers};
pub use rounds::{Cover, LAST_NUMBER, Rounds};
