/// What became of a datagram that was handed in.
#[derive(Clone, Copy, Debug, PartialEq, Eq)]
pub enum Outcome {
    /// Its lane took it, so all with lower numbers come too late from now on.
    Taken,
    /// It was refused for good. This says nothing of other transactions.
    Refused,
    /// It was refused for now, and stays where it is.
    Waits,
}
