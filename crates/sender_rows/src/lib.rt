//! Worked transactions at the sending end, which the checker computes from the definitions of `sender_table`.
//! There is no code here: each row is a lemma in `specs/`.
#![tactic(auto)]
