//! The main thread of the server: what it does at a command and in a turn.
#![tactic(auto)]

mod commands;
mod console;
mod given;
mod main_loop;
mod recordings;
mod server;
mod tuning;
mod turns;

pub use console::Console;
pub use main_loop::work_in_turns;
pub use server::Server;
