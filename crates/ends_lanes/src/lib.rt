//! The lanes of entities as the two ends of a transaction, stated over their definitions alone.
#![tactic(auto)]

pub mod laws;
