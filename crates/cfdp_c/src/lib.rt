//! The entity of one thread for C: a handle, and calls that take it.
#![tactic(auto)]

mod asking;
mod codes;
mod copies;
mod events;
mod explaining;
mod handle;
mod hold;
mod names;
mod opening;
mod owner;
mod peers;
mod putting;
mod setting;
mod ticking;

pub use handle::Handle;
