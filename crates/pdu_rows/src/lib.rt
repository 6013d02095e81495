//! Worked PDUs, which the checker computes from the definitions of `pdu_values` and `pdu_reading`. There is no code
//! here: each row is a lemma in `proofs/`.
#![tactic(auto)]
