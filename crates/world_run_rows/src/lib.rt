//! Worked examples of the states and results of an entity of one thread, which the checker computes from `world_core` and
//! `world_laws`. There is no code here: each row is a lemma in `proofs/`.
#![tactic(auto)]
