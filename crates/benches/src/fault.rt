//! Why a scenario does not run to its end.
use cfdp_types::{HandlerNotAllowed, PutFault};
use entity_config::ConfigFault;
use pdu_codec::DecodeFault;
use std::alloc::{AllocError, AllocFailed};
use std::io;
use std::num::{ParseIntError, TryFromIntError};
use txn_events::Refusal;

/// Why a scenario does not run to its end.
#[derive(Clone, Copy, Debug)]
pub(crate) enum Fault {
    /// The program's arguments are not the name of a scenario and its numbers.
    Usage,
    /// Memory ran out.
    NoMemory,
    /// A call of the system failed.
    Surroundings,
    /// The parameters of a transaction or an entity are refused.
    BadSetting,
    /// A datagram is not a PDU.
    Decode(DecodeFault),
    /// A core refuses an event.
    Refused(Refusal),
    /// A transaction ended before all its events.
    Ended,
    /// The whole file was received, but not handed out to be stored.
    NotGiven,
    /// A lane gave up because its queue was full.
    NotSent,
    /// A datagram was not accepted.
    NotTaken,
}

impl From<AllocError> for Fault {
    fn from(_error: AllocError) -> Fault {
        Fault::NoMemory
    }
}

impl From<AllocFailed<u8>> for Fault {
    fn from(_error: AllocFailed<u8>) -> Fault {
        Fault::NoMemory
    }
}

impl From<io::Error> for Fault {
    fn from(_error: io::Error) -> Fault {
        Fault::Surroundings
    }
}

impl From<TryFromIntError> for Fault {
    fn from(_error: TryFromIntError) -> Fault {
        Fault::BadSetting
    }
}

impl From<ParseIntError> for Fault {
    fn from(_error: ParseIntError) -> Fault {
        Fault::Usage
    }
}

impl From<HandlerNotAllowed> for Fault {
    fn from(_error: HandlerNotAllowed) -> Fault {
        Fault::BadSetting
    }
}

impl From<PutFault> for Fault {
    fn from(_error: PutFault) -> Fault {
        Fault::BadSetting
    }
}

impl From<ConfigFault> for Fault {
    fn from(_fault: ConfigFault) -> Fault {
        Fault::BadSetting
    }
}

impl From<DecodeFault> for Fault {
    fn from(fault: DecodeFault) -> Fault {
        Fault::Decode(fault)
    }
}

impl From<Refusal> for Fault {
    fn from(refusal: Refusal) -> Fault {
        Fault::Refused(refusal)
    }
}
