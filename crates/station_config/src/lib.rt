//! A station's file: the keys that it may have, the values that it gives, and its first fault.
#![tactic(auto)]

mod addresses;
mod fault;
mod keys;
mod paths;
mod reading;
mod settings;
mod walk;

pub use fault::{StationFault, Why};
pub use keys::{KEYS, KeyRow, Kind, REMOTE_KEYS, push_allowed};
pub use paths::path_from;
pub use reading::{entity_table, read_entity, read_file, read_station, told_in};
pub use settings::{
    ControlSettings, Lanes, LogSettings, PeerLanes, RecordSettings, RemoteSettings,
    SendingSettings, Settings, SourceRule, StationSettings, StoreSettings,
};
pub use walk::is_known;
