use pdu_codec::DecodeFault;
use thiserror::Error;

/// Why a datagram was not queued for the workers.
#[derive(Clone, Copy, Debug, PartialEq, Eq, Error)]
pub enum IntakeFault {
    /// It is not a PDU that the entity accepts.
    #[error("the datagram is no PDU")]
    Decode(DecodeFault),
    /// No worker receives datagrams any more.
    #[error("the intake is closed")]
    Closed,
    /// Memory ran out.
    #[error("out of memory")]
    NoMemory,
}

impl IntakeFault {
    ghost use Rattle.std.specs.Prelude.{◌≡◌};
    ghost use Rattle.entity_workers.specs.Faults.{intake_number};

    /// The fault's number.
    pub fn number(self) -> u8
        ensures { result ≡ intake_number self }
    {
        match self {
            IntakeFault::Decode(_) => 1,
            IntakeFault::Closed => 2,
            IntakeFault::NoMemory => 3,
        }
    }
}

/// Why not all workers ran.
#[derive(Clone, Copy, Debug, PartialEq, Eq, Error)]
pub enum WorkersFault {
    /// Memory ran out; no worker ran.
    #[error("out of memory")]
    NoMemory,
    /// A thread could not be started. The workers started before it ran to their end.
    #[error("a thread could not be started")]
    Start,
}

impl WorkersFault {
    ghost use Rattle.std.specs.Prelude.{◌≡◌};
    ghost use Rattle.entity_workers.specs.Faults.{workers_number};

    /// The fault's number.
    pub fn number(self) -> u8
        ensures { result ≡ workers_number self }
    {
        match self {
            WorkersFault::NoMemory => 1,
            WorkersFault::Start => 2,
        }
    }
}
