//! Parses the lines of a server's commands.
#![tactic(auto)]

mod changes;
mod command;
mod commands;
mod faults;
mod looking;
mod operands;
mod options;
mod other;
mod parts;
mod put;
mod sending;
mod tuning;
mod words;

pub use command::{Command, PutCommand, SendCommand, Tuning, command_of};
pub use commands::{command_words, put_words, send_words};
pub use faults::line_fault;
pub use looking::only_looks;
