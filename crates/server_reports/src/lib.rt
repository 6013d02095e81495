//! What the server's users receive, what the server reports of itself to those who read its events, and how long users'
//! bundles wait for a client that follows.
#![tactic(auto)]

mod audience;
mod reports;
mod spell;

pub use audience::Audience;
pub use reports::Reports;
pub use spell::{Spell, waits_for_followers};
