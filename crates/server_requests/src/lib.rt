//! What a server asks of its entity: Puts, those of its outbox too, and other requests.
#![tactic(auto)]

mod ends;
mod full;
mod requests;
mod sending;
mod skipping;
mod working;

pub use server_kept::{Numbers, Outbox};
pub use skipping::Opened;
pub use working::{Settings, Working, unread_in};
