//! Configurations for tests and measurements: the reference, and variants of it.
#![tactic(auto)]

mod entity;
mod text;

pub use entity::{
    ENTITY_ONE, EntityText, REFERENCE, REMOTE_ONE, REMOTE_TWO, RemoteText, TWO_SOURCES,
};
pub use text::text_of;
