ghost use Rattle.std.specs.Prelude.{◌≡◌};
ghost use Rattle.config_reading.specs.declared.fault.ConfigFault.TheVariants.{NoMemory};

use cfdp_types::Role;
use std::alloc::{AllocError, AllocFailed};
use std::fmt;
use thiserror::Error;

/// The keys of a configuration.
#[derive(Clone, Copy, Debug, PartialEq, Eq)]
pub enum Key {
    Entity,
    User,
    Remote,
    Id,
    IdOctets,
    SequenceOctets,
    First,
    PutLanes,
    ReceiveLanes,
    Capacity,
    Segment,
    Name,
    Address,
    AckMilliseconds,
    NakMilliseconds,
    CheckMilliseconds,
    InactivityMilliseconds,
    AckLimit,
    NakLimit,
    CheckLimit,
    Send,
    ReceiveOne,
    ReceiveTwo,
    Checksum,
    PositiveAckLimit,
    FilestoreRejection,
    ChecksumFailure,
    FileSizeError,
    NakLimitReached,
    Inactivity,
    CheckLimitReached,
    UnsupportedChecksum,
}

/// The tables of a configuration.
#[derive(Clone, Copy, Debug, PartialEq, Eq)]
pub enum Section {
    /// The top level of the text.
    Top,
    Entity,
    User,
    Remote,
}

/// Why a configuration, or a change to one, was refused.
#[derive(Clone, Copy, Debug, PartialEq, Eq, Error)]
pub enum ConfigFault {
    #[error("the text is not TOML")]
    BadToml,
    #[error("`{0}` is missing")]
    MissingKey(Key),
    #[error("the value of `{0}` has the wrong type")]
    WrongType(Key),
    #[error("the value of `{0}` is out of range")]
    OutOfRange(Key),
    #[error("{0} has a key that is not known there")]
    UnknownKey(Section),
    #[error("two users have the same name")]
    DuplicateUser,
    #[error("two entities have the same ID")]
    DuplicateRemote,
    #[error("the user of a remote entity is not one of the users")]
    UnknownUser,
    #[error("too many remote entities have the same user")]
    TooManySources,
    #[error("a handler in `{0}` is not known or not allowed there")]
    HandlerNotAllowed(Key),
    #[error("the address of a remote entity is not four numbers with dots, a colon and a port")]
    BadAddress,
    #[error("no memory")]
    NoMemory,
}

impl ConfigFault {
    ghost use Rattle.std.specs.Prelude.{◌≡◌};
    ghost use Rattle.config_reading.specs.Faults.{fault_number};

    /// The fault's number.
    pub fn number(self) -> u8
        ensures { result ≡ fault_number self }
    {
        match self {
            ConfigFault::BadToml => 1,
            ConfigFault::MissingKey(_) => 2,
            ConfigFault::WrongType(_) => 3,
            ConfigFault::OutOfRange(_) => 4,
            ConfigFault::UnknownKey(_) => 5,
            ConfigFault::DuplicateUser => 6,
            ConfigFault::DuplicateRemote => 7,
            ConfigFault::UnknownUser => 8,
            ConfigFault::TooManySources => 9,
            ConfigFault::HandlerNotAllowed(_) => 10,
            ConfigFault::BadAddress => 11,
            ConfigFault::NoMemory => 12,
        }
    }
}

impl From<AllocError> for ConfigFault {
    ghost from_gives = { λ _ fault. fault ≡ NoMemory };

    fn from(_error: AllocError) -> ConfigFault {
        ConfigFault::NoMemory
    }
}

impl<T: Drop> From<AllocFailed<T>> for ConfigFault {
    ghost from_gives = { λ _ fault. fault ≡ NoMemory };

    fn from(_error: AllocFailed<T>) -> ConfigFault {
        ConfigFault::NoMemory
    }
}

impl Key {
    ghost use Rattle.std.specs.Prelude.{◌≡◌};
    ghost use Rattle.config_reading.specs.Faults.{key_text, table_key};

    /// The key of the handler table of a role.
    pub fn of_table(role: Role) -> Key
        ensures { result ≡ table_key role }
    {
        match role {
            Role::Send => Key::Send,
            Role::RecvOne => Key::ReceiveOne,
            Role::RecvTwo => Key::ReceiveTwo,
        }
    }

    /// The key as it is written in the text.
    pub fn name(self) -> &'static str
        ensures { result.now ≡ key_text self }
    {
        match self {
            Key::Entity => "entity",
            Key::User => "user",
            Key::Remote => "remote",
            Key::Id => "id",
            Key::IdOctets => "id_octets",
            Key::SequenceOctets => "seq_octets",
            Key::First => "first",
            Key::PutLanes => "put_lanes",
            Key::ReceiveLanes => "recv_lanes",
            Key::Capacity => "capacity",
            Key::Segment => "segment",
            Key::Name => "name",
            Key::Address => "address",
            Key::AckMilliseconds => "ack_ms",
            Key::NakMilliseconds => "nak_ms",
            Key::CheckMilliseconds => "check_ms",
            Key::InactivityMilliseconds => "inactivity_ms",
            Key::AckLimit => "ack_limit",
            Key::NakLimit => "nak_limit",
            Key::CheckLimit => "check_limit",
            Key::Send => "send",
            Key::ReceiveOne => "recv1",
            Key::ReceiveTwo => "recv2",
            Key::Checksum => "checksum",
            Key::PositiveAckLimit => "positive_ack_limit",
            Key::FilestoreRejection => "filestore_rejection",
            Key::ChecksumFailure => "checksum_failure",
            Key::FileSizeError => "file_size_error",
            Key::NakLimitReached => "nak_limit",
            Key::Inactivity => "inactivity",
            Key::CheckLimitReached => "check_limit",
            Key::UnsupportedChecksum => "unsupported_checksum",
        }
    }
}

impl fmt::Display for Key {
    fn fmt<W: fmt::Write>(&self, f: &mut fmt::Formatter<W>) -> fmt::Result {
        f.write_str(self.name())
    }
}

impl fmt::Display for Section {
    fn fmt<W: fmt::Write>(&self, f: &mut fmt::Formatter<W>) -> fmt::Result {
        f.write_str(match self {
            Section::Top => "the configuration",
            Section::Entity => "the table `entity`",
            Section::User => "a table `user`",
            Section::Remote => "a table `remote`",
        })
    }
}
