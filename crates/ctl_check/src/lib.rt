//! Whether somebody has to look at a station, in one line for monitoring.
#![tactic(auto)]

mod health;
mod lines;
mod telling;

pub use health::{Health, Verdict, check_status, verdict_of};
pub use lines::health_in;
pub use telling::check_line;
