//! What passes between the threads of a program: parsed lines of commands, the rest of the steps, and files that were
//! read.
#![tactic(auto)]

mod clock;
mod desk;
mod files;
mod reading;
mod said;
mod step;
mod trays;

pub use clock::{moment, wall_moment};
pub use desk::{Desk, NextLine};
pub use files::{Reading, read_files};
pub use reading::read_lines;
pub use said::{Said, said_by};
pub use step::{Step, Urgency};
pub use trays::AskedLine;
