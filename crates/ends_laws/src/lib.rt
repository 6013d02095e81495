//! Laws on the file of a Put at each end of its transaction, stated over the definitions of both ends alone.
#![tactic(auto)]

pub mod laws;
