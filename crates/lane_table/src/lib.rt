//! Sending and receiving lanes: the state of a lane, its answer to each event, its numbers, its refusals, the bundles
//! that fit what it sent, and the files that it hands out; and the laws of every lane.
#![tactic(auto)]

mod done;
mod echo;
mod glance;
mod lane_side;
pub mod laws;
mod refused;

pub use done::Done;
pub use echo::Echo;
pub use glance::{Glance, GlancedFile};
pub use lane_side::{LaneSide, Numbers};
pub use refused::Refused;
