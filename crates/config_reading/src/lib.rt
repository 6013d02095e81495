//! Reading an entity's configuration from a text: its parts, or the first fault.
#![tactic(auto)]

mod entity;
mod fault;
mod parts;
mod reading;
mod remote;

pub use entity::EntitySettings;
pub use fault::{ConfigFault, Key, Section};
pub use parts::ConfigParts;
pub use reading::entity::{ENTITY_KEYS, entity_in};
pub use reading::handlers::{HANDLER_KEYS, cancelling};
pub use reading::remotes::{REMOTE_KEYS, remote_in};
pub use reading::tables::{counted, has_only, required, table_of};
pub use reading::users::{place_of, user_in};
pub use reading::{parts_in, read_parts};
pub use remote::{Peer, Remote};
