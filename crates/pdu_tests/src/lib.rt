//! PDUs as octets, as callers see them. `proofs/` has a vector for each kind, length and fault, which the checker
//! computes.
#![tactic(auto)]

#[cfg(test)]
mod codec;
#[cfg(test)]
mod pdus;
