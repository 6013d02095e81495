//! Worked transactions at the receiving end, which the checker computes from the definitions of `receiver_table`.
//! There is no code here: each row is a lemma in `specs/`.
#![tactic(auto)]
