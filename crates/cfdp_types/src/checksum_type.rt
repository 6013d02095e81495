ghost use Rattle.std.specs.Prelude.{◌≡◌, ◌<◌};

use crate::names::Checksum;
use std::marker::Model;

/// A checksum type, as its number in the registry of checksum types: 0 to 15.
#[derive(Clone, Copy, Debug, PartialEq, Eq)]
pub struct ChecksumType {
    number: u8,
}

impl Model for ChecksumType {
    ghost use Rattle.std.specs.Prelude.{ℕ, ◌<◌};

    ghost Value = { ℕ };

    ghost view = { λ c. c.number };

    ghost invariant = { λ c. c.number < 16 };

    ghost inverse = { λ n. record { number = n } };
}

impl ChecksumType {
    ghost use Rattle.cfdp_types.specs.ChecksumType.{type_of};

    /// The modular checksum: the sum of the file's four-octet words.
    pub const MODULAR: ChecksumType = ChecksumType { number: 0 };

    /// The null checksum: always 0.
    pub const NULL: ChecksumType = ChecksumType { number: 15 };

    /// The checksum type with this number.
    pub fn new(number: u8) -> ChecksumType
        requires { number < 16 }
        ensures { result ≡ number }
    {
        ChecksumType { number }
    }

    /// The checksum type that Metadata names for this checksum.
    pub fn of(checksum: Checksum) -> ChecksumType
        ensures { result ≡ type_of checksum }
    {
        match checksum {
            Checksum::Modular => ChecksumType::MODULAR,
            Checksum::Null => ChecksumType::NULL,
        }
    }

    /// The number in the registry of checksum types.
    pub fn number(self) -> u8
        ensures value { result ≡ self }
        ensures below { result < 16 }
    {
        self.number
    }
}
