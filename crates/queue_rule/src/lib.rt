//! What the threads that share a user's queue know about it, and the rule that each of their steps keeps.
#![tactic(auto)]

mod rule;
mod steps;
mod view;

pub use rule::{Fair, GivesBack, NextLane, OfUser, QueueOfUser, Sends, Takes};
pub use steps::{QueuePass, SharedQueue, admit, next_lane, open, open_port, send, take, waiting};
pub use view::{OutletView, PortView, View};
