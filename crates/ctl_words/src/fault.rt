use std::alloc::AllocError;

/// Why a command line isn't carried out.
#[derive(Drop)]
pub enum WordsFault {
    /// A word is missing, unknown, given twice or out of range; the text says which.
    Usage(String),
    /// The help was asked for.
    Help,
    /// The version was asked for.
    Version,
    /// Memory ran out.
    NoMemory,
}

impl From<AllocError> for WordsFault {
    fn from(_lack: AllocError) -> WordsFault {
        WordsFault::NoMemory
    }
}
