//! What is allowed in a configuration.
use config_reading::{ConfigFault, Key};

/// Which values are allowed for a key.
pub fn allowed_at(key: Key) -> &'static str {
    match key {
        Key::Id => "; allowed: 0 to 9223372036854775807, in `id_octets` octets",
        Key::IdOctets | Key::SequenceOctets => "; allowed: 1 to 8",
        Key::First => "; allowed: 0 to 9223372036854775807",
        Key::PutLanes => "; allowed: 1 to 32",
        Key::ReceiveLanes => "; allowed: 1 to 8",
        Key::Capacity => "; allowed: 1 to 1024",
        Key::Segment => "; allowed: 256 to 1400",
        Key::Name => "; allowed: 1 to 32 of a to z and digits",
        Key::User =>
            "; allowed: 1 to 16 tables [[user]], and the name of one in a table [[remote]]",
        Key::Remote => "; allowed: up to 128 tables [[remote]]",
        Key::Address => "; allowed: \"A.B.C.D:PORT\"",
        Key::Checksum => "; allowed: \"modular\" and \"null\"",
        Key::AckMilliseconds
        | Key::NakMilliseconds
        | Key::CheckMilliseconds
        | Key::InactivityMilliseconds => { "; allowed: 1 to 86400000" }
        Key::AckLimit | Key::NakLimit | Key::CheckLimit => "; allowed: 1 to 255",
        Key::Entity | Key::Send | Key::ReceiveOne | Key::ReceiveTwo => "; allowed: a table",
        _ => "; allowed: \"cancel\", \"suspend\", \"ignore\" and \"abandon\"",
    }
}

/// How to repair a fault of a configuration.
pub fn remedy(fault: ConfigFault) -> &'static str {
    match fault {
        ConfigFault::BadToml =>
            "; look for a missing quote or bracket, or a key that is given twice",
        ConfigFault::UnknownKey(_) => "; look for a misspelled key",
        ConfigFault::UnknownUser => "; add a table [[user]], or correct the name",
        ConfigFault::TooManySources => "; allowed: 8",
        ConfigFault::HandlerNotAllowed(_) =>
            "; the manual of the configuration has a table of handlers",
        ConfigFault::BadAddress =>
            "; allowed: \"A.B.C.D:PORT\", in decimal and without leading zeros",
        _ => "",
    }
}
