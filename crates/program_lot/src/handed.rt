use cfdp_types::Octets;

/// A datagram that was taken from the lot to be handed in. The caller settles it afterwards.
#[derive(Debug, Drop)]
pub struct Handed {
    /// The index of its lane, over all users.
    pub(crate) index: usize,
    pub(crate) number: u64,
    pub(crate) arrival: u64,
    pub octets: Octets,
}

/// What came of a datagram that was parked.
#[derive(Clone, Copy, Debug, PartialEq, Eq)]
pub struct ParkEnd {
    /// Whether the thread has to wake the main thread, which may sleep: nothing waited before.
    pub wakes: bool,
    /// How many datagrams were dropped for want of room or memory.
    pub dropped: usize,
}
