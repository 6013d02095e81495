ghost use Rattle.std.specs.Prelude.{◌≡◌};
ghost use Rattle.pdu_reading.specs.declared.fault.DecodeFault.TheVariants.{NoMemory};
ghost use Rattle.pdu_reading.specs.Fault.{fault_number};

use std::alloc::AllocError;

/// Why a datagram is not a PDU that the entity accepts. Where several faults apply, the first is reported.
#[derive(Clone, Copy, Debug, PartialEq, Eq)]
pub enum DecodeFault {
    /// The datagram has fewer than four octets, or fewer than its fixed header needs.
    TooShort = 1,
    /// The version is not 001.
    BadVersion = 2,
    /// The CRC flag is set: a CRC is neither written nor checked here.
    CrcPresent = 3,
    /// The datagram's length is not that of the header and the data field together.
    LengthMismatch = 5,
    /// The directive code is not one that the entity accepts, or an ACK acknowledges a directive other than EOF and
    /// Finished.
    UnknownDirective = 6,
    /// The data field ends within a field or goes on after the last one, a directive has no code, or an entity ID in
    /// an option of EOF or Finished has no octet or more than eight.
    FieldCut = 7,
    /// A file name is empty.
    NoFileName = 8,
    /// Memory ran out.
    NoMemory = 9,
}

impl DecodeFault {
    /// The fault's number, as it is printed.
    pub fn number(self) -> u8
        ensures { result ≡ fault_number self }
    {
        self as u8
    }
}

impl From<AllocError> for DecodeFault {
    ghost from_gives = { λ _ fault. fault ≡ NoMemory };

    fn from(_error: AllocError) -> DecodeFault {
        DecodeFault::NoMemory
    }
}
