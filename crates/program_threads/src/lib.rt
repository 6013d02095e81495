//! The threads of a program: workers, the main thread, and those that read commands and files to be sent.
#![tactic(auto)]

mod beside;
mod way_in;

pub use beside::{Control, MainThread, run_beside, run_commanded, run_controlled};
pub use way_in::WayIn;
