//! The meaning of an entity of one thread: what happens in it, the states of its lanes after that, the users'
//! indications, and the laws of every run.
#![tactic(auto)]

pub mod laws;
