/// Why a command line doesn't start a program.
#[derive(Clone, Copy, Debug, PartialEq, Eq)]
pub enum WordsFault {
    /// A word is missing, unknown, given twice or out of range.
    Usage,
    /// The help was asked for.
    Help,
    /// The version was asked for.
    Version,
    /// Memory ran out.
    NoMemory,
}
