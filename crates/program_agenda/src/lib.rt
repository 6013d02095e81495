//! The work that the main thread of a program has to do without an event from outside: timers that expire, files that
//! are being sent, received files to be stored; and the timers that rest while a link is held.
#![tactic(auto)]

mod agenda;
mod expiry;
mod fate;
pub mod laws;
mod pace;
mod resting;
mod rotation;
mod sending;
mod store_queue;

pub use agenda::Agenda;
pub use expiry::{Expiry, TimedLink, expiry_of};
pub use fate::{Fate, Obstacle, fate_of_pump, fate_of_retry};
pub use pace::Pace;
pub use resting::{Resting, RestingTimers, deadline_behind};
pub use rotation::Rotation;
pub use sending::Sending;
pub use store_queue::{Retry, StoreQueue};
