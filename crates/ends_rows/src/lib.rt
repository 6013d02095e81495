//! Worked schedules of two ends, which the checker computes from the definitions of `ends_schedules` and
//! `ends_lanes`. There is no code here: each row is a lemma in `specs/`.
#![tactic(auto)]
