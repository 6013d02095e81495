//! Worked examples of users' queues, which the checker computes from the definitions of `queue_rule` and
//! `user_queues`. There is no code here: each row is a lemma in `proofs/`.
#![tactic(auto)]
