//! The names in a station's lines: those of members, of kinds, and of values that programs compare. Each is written
//! only here. The station's lines and the programs that read them cite it.
#![tactic(auto)]

pub mod kind;
pub mod member;
pub mod word;
