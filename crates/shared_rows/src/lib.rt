//! Worked examples of the entity that threads share, which the checker computes from the definitions of
//! `shared_lanes`, `lane_table` and `shared_entity`. There is no code here: each row is a lemma in `proofs/`.
#![tactic(auto)]
