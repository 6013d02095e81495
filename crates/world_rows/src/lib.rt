//! Worked steps of lanes, and worked histories of an entity of one thread, which the checker computes from the
//! definitions of `lane_table` and `world_table`. There is no code here: each row is a lemma in `specs/`.
#![tactic(auto)]
