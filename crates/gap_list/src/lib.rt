//! Sets of file offsets: which octets of a file were received and which are missing.
#![tactic(auto)]

mod blocks;
mod edit;
mod gaps;
mod merge;
mod run;
mod search;
mod slices;
mod walk;

pub use gaps::Gaps;
pub use run::{Run, Runs};
