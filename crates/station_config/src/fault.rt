//! Why a station's file is refused.
use entity_config::ConfigFault;

/// What is wrong with one of the station's keys.
#[derive(Clone, Copy, PartialEq, Eq)]
pub enum Why {
    /// Its table is something else than a table.
    NoTable,
    /// Its table has a key that isn't known there.
    UnknownKey,
    /// The key has to be there, and isn't.
    Missing,
    /// Its value isn't allowed.
    Unfit,
}

/// The first fault of a station's file.
#[derive(Clone, Copy, PartialEq, Eq)]
pub enum StationFault {
    NoMemory,
    /// The text isn't TOML.
    BadToml,
    /// What is wrong with the key in this place of `KEYS`.
    Key { place: usize, why: Why },
    /// The value of the key in this place of `REMOTE_KEYS` isn't allowed, in the table `[[remote]]` of this number,
    /// counted from 0.
    Remote { table: usize, place: usize },
    /// What the file says of the entity itself has this fault.
    Entity(ConfigFault),
}

impl StationFault {
    /// The fault's number, as [`ConfigFault::number`] has it for the faults of an entity's configuration.
    pub fn number(self) -> u8 {
        match self {
            StationFault::BadToml => ConfigFault::BadToml.number(),
            StationFault::Key {
                why: Why::Missing,
                ..
            } => 2,
            StationFault::Key {
                why: Why::NoTable,
                ..
            } => 3,
            StationFault::Key {
                why: Why::Unfit,
                ..
            }
            | StationFault::Remote { .. } => 4,
            StationFault::Key {
                why: Why::UnknownKey,
                ..
            } => 5,
            StationFault::Entity(fault) => fault.number(),
            StationFault::NoMemory => ConfigFault::NoMemory.number(),
        }
    }
}
