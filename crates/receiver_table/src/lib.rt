//! The state table of the receiving end, in both classes: its answer to each event. There is no code here: the
//! definitions in `specs/` compute it.
#![tactic(auto)]
