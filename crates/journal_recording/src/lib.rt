//! Makes the script of a journal, by playing its events.
#![tactic(auto)]

mod events;
pub mod laws;
mod script;

pub use script::{ScriptFault, script_of};
