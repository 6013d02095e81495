//! The law of two ends carried to the disk of the receiver's file store.
#![tactic(auto)]

pub mod laws;
