//! Worked configurations and routes, which the checker computes from the definitions of `config_reading`, `entity_config`
//! and `entity_routing`. There is no code here: each row is a lemma in `proofs/`.
#![tactic(auto)]
