//! Prints an entity's answers: lines for its users' indications, and for events that were accepted or refused.
#![tactic(auto)]

mod answers;
mod names;
mod told;

pub use answers::{push_decode_fault, push_done, push_refusal, push_refused};
pub use names::{delivery_name, indication_name, phase_name, status_name};
pub use told::push_bundle;
