//! Why a run does not come to its end.
use std::alloc::{AllocError, AllocFailed};
use std::io;

/// Why a run does not come to its end.
#[derive(Debug, Drop)]
pub(crate) enum Fault {
    /// Memory ran out where a call is not repeated, or ran out twice.
    NoMemory,
    /// The program's output can't be written.
    Output,
}

impl From<AllocError> for Fault {
    fn from(_error: AllocError) -> Fault {
        Fault::NoMemory
    }
}

impl From<AllocFailed<u8>> for Fault {
    fn from(_error: AllocFailed<u8>) -> Fault {
        Fault::NoMemory
    }
}

impl From<io::Error> for Fault {
    fn from(_error: io::Error) -> Fault {
        Fault::Output
    }
}
