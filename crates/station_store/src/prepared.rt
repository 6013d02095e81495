/// The result of trying to keep a file before it is deposited.
#[derive(Clone, Copy, Debug, PartialEq, Eq)]
pub enum Prepared {
    /// A deposit of the file will be answered at once: it is kept, its name is bad, or it can't be kept.
    Ready,
    /// The file couldn't be kept, for a reason that may pass.
    Later,
}
