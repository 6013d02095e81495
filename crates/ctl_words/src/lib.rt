//! The command line of the program that commands a server.
#![tactic(auto)]

mod acting;
mod choosing;
mod command;
mod fault;
mod help;
mod planning;
mod reading;
mod sending;
mod text;
mod watching;
mod words;

pub use acting::act_command;
pub use fault::WordsFault;
pub use help::{ctl_help, ctl_version};
pub use reading::ctl_words;
pub use sending::{SendCommand, send_command};
pub use text::{COMMAND_OCTETS, command_text, has_long_name, is_too_long};
pub use words::{
    ActWords, Choice, Colour, CtlWords, FollowWords, HistoryWords, OutboxWords, ResendWords,
    SendWords, StatusWords, Task, TransactionWord, Verb, WatchWords, WindowsWords,
};
