//! How the console responds: which requests it takes, its page, its headers. The rest comes from a `Source`.
#![tactic(auto)]

mod command;
mod console;
mod guard;
mod headers;
mod page;
mod permit;
mod route;
mod secret;
mod source;

pub use command::is_command;
pub use console::{Console, Settings};
pub use guard::Names;
pub use permit::Permit;
pub use route::Route;
pub use source::{Found, Source};
