//! Checks whether the indications of one transaction, read in order, are a word.
#![tactic(auto)]

mod marks;
mod reader;
mod segments;

pub use indications::{Bundle, Indication, IndicationKind, Indications, Phase, Side};
pub use reader::{NotAWord, WordReader};
