//! The running timers, in the order in which they were added. A timer that is armed again keeps its place.
#![tactic(auto)]

mod armed;
mod list;
mod slot;
mod slots;

pub use armed::Armed;
pub use list::TimerList;
