//! The laws that connect the spelling of PDUs with the reading of octets: what is spelled is read, what is read is
//! spelled, and the fault that is reported is the first. There is no code here: the laws are lemmas in `proofs/`.
#![tactic(auto)]
