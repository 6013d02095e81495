//! The value behind the lock of a lane: the lane with its own outlet. Threads that reach it go through a gate.
#![tactic(auto)]

mod gate;
mod held;

pub use gate::{Gate, NoGate, Point};
pub use held::Held;
pub use user_queues::Names;
