//! How much each event of a server matters.
#![tactic(auto)]

mod event;
mod label;
mod level;

pub use event::EventKind;
pub use label::push_labelled;
pub use level::Level;
