//! The console: what a station says, for visits over HTTP.
#![tactic(auto)]

mod asked;
mod doors;
mod events;
mod kept;
mod lobby;
mod plan;
mod visit;
mod visits;
mod watch;

pub use asked::Asked;
pub use doors::VISITS;
pub use events::{EVENT_OCTETS, EVENTS, Events};
pub use visits::{VISITORS, run_console};
pub use watch::Watch;
