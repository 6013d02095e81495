//! The state table of the sending end, in both classes: its answer to each event. There is no code here: the
//! definitions in `specs/` compute it.
#![tactic(auto)]
