use entity_routing::Place;

/// What is parked of a lane, or was dropped.
#[derive(Clone, Copy, Debug, PartialEq, Eq)]
pub struct ParkedLane {
    pub place: Place,
    pub datagrams: u64,
    /// How many octets of the room they take up.
    pub octets: u64,
    pub transactions: u64,
    /// How many datagrams had no room, or no memory.
    pub dropped: u64,
    /// Since when the oldest waits, in milliseconds since 1970, if one waits.
    pub since: Option<u64>,
}
