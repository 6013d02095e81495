//! The configuration of an entity: its users, its lanes and the remote entities that it knows.
#![tactic(auto)]

mod change;
mod config;
mod reading;
mod reference;
mod setting;

pub use config::Config;
pub use config_reading::{ConfigFault, EntitySettings, Key, Remote, Section};
pub use reading::{config_in, read_config};
pub use setting::Setting;
