//! The receiving end of a transaction, in both classes: the core, which plans an event and then carries out the plan.
#![tactic(auto)]

mod answering;
mod first_event;
mod glance;
mod image;
mod pdus;
mod plan;
mod planning;
mod receiver;
mod refusals;
mod responses;

pub use plan::Plan;
pub use receiver::ReceiverCore;
pub use txn_events::Answer;
