//! The sending end of a transaction, in both classes: the core, which plans an event and then carries out the plan.
#![tactic(auto)]

mod control;
mod first_event;
mod glance;
mod pdus;
mod plan;
mod planning;
mod refusals;
mod remainder;
mod remaining;
mod response;
mod responses;
mod sender;
mod steps;

pub use plan::Plan;
pub use sender::SenderCore;
pub use txn_events::{Answer, Pdus, TimerOps};
