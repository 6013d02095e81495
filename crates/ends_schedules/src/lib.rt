//! What is guaranteed between the two ends of a transaction, however PDUs are lost, repeated and reordered on
//! their way. Stated over the definitions of both ends alone.
#![tactic(auto)]

pub mod laws;
