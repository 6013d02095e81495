//! Parses the lines of a script.
#![tactic(auto)]

mod command;
mod gathered;
mod operands;
mod put;
mod setting;

pub use command::{Command, command_of};
pub use gathered::Gathered;
