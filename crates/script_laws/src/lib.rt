//! Laws of every script, about the definitions alone.
#![tactic(auto)]

pub mod laws;
