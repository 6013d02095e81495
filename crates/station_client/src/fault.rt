use std::alloc::AllocError;

/// Why a station doesn't reply.
#[derive(Clone, Copy, Debug, PartialEq, Eq)]
pub enum StationFault {
    /// Nobody listens at the path, or nobody lets clients in.
    NoServer,
    /// A socket can't have this path.
    BadPath,
    /// This user may not open the path.
    Denied,
    /// The station has no free seat.
    Busy,
    /// The station ended, or cut the connection.
    Gone,
    /// No whole reply came in time.
    TimedOut,
    /// A line or a reply was longer than a station sends.
    TooLong,
    /// More events came before a reply than are kept.
    TooManyEvents,
    /// The command has a line feed inside.
    BadCommand,
    /// Memory ran out.
    NoMemory,
    /// A call of the system failed.
    System,
}

impl StationFault {
    /// The fault as words for a message.
    pub fn text(self) -> &'static str {
        match self {
            StationFault::NoServer => "no server answers at the control socket",
            StationFault::BadPath => "the control socket can't be used",
            StationFault::Denied => "permission denied; its owner or group may open it",
            StationFault::Busy => "the server has no seat for another client",
            StationFault::Gone => "the server went away",
            StationFault::TimedOut => "the server didn't answer in time",
            StationFault::TooLong => "the server's answer is too long",
            StationFault::TooManyEvents => "the server sent too many events before its answer",
            StationFault::BadCommand => "a command must be one line",
            StationFault::NoMemory => "no memory",
            StationFault::System => "a system call failed",
        }
    }
}

impl From<AllocError> for StationFault {
    ghost use Rattle.std.specs.Prelude.{◌≡◌};
    ghost use Rattle.station_client.specs.declared.fault.StationFault.TheVariants as fault;

    ghost from_gives = { λ _ e. e ≡ fault.NoMemory };

    fn from(_lack: AllocError) -> StationFault {
        StationFault::NoMemory
    }
}
