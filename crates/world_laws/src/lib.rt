//! Laws of every run of an entity of one thread whose events go where its configuration says.
#![tactic(auto)]

pub mod laws;
