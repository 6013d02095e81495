ghost use Rattle.std.specs.Prelude.{◌≡◌};
ghost use Rattle.cfdp_ctl.specs.Exits.{status_of};

use station_client::StationFault;
use std::alloc::AllocError;

/// Why the program ends.
#[derive(Clone, Copy)]
pub(crate) enum CtlFault {
    /// The server doesn't reply.
    Station(StationFault),
    /// The words of the command line aren't UTF-8.
    Words,
    /// Neither the command line nor the environment has the path of the control socket.
    NoPath,
    /// The folder in which the program runs has no name in UTF-8.
    NoFolder,
    /// The output can't be written.
    Output,
    /// The standard input can't be read.
    Input,
    /// Memory ran out.
    NoMemory,
}

impl CtlFault {
    /// The fault's text; nothing if nobody would read it.
    pub(crate) fn text(self) -> Option<&'static str> {
        match self {
            CtlFault::Station(fault) => Some(fault.text()),
            CtlFault::Words => Some("the command line isn't UTF-8"),
            CtlFault::NoPath => Some("--control PATH is missing, and CFDP_CONTROL isn't set"),
            CtlFault::NoFolder => Some(
                "the current folder's path is unknown or isn't UTF-8: give absolute paths",
            ),
            CtlFault::Output => None,
            CtlFault::Input => Some("the standard input can't be read"),
            CtlFault::NoMemory => Some("no memory"),
        }
    }

    /// The exit status.
    pub(crate) fn status(self) -> u8
        ensures { result ≡ status_of self }
    {
        match self {
            CtlFault::Words | CtlFault::NoPath | CtlFault::NoFolder => 2,
            _ => 1,
        }
    }
}

impl From<StationFault> for CtlFault {
    fn from(fault: StationFault) -> CtlFault {
        CtlFault::Station(fault)
    }
}

impl From<AllocError> for CtlFault {
    fn from(_lack: AllocError) -> CtlFault {
        CtlFault::NoMemory
    }
}
