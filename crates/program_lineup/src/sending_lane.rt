use cfdp_types::EntityId;

/// A transaction that a sending lane runs.
#[derive(Clone, Copy, Debug, PartialEq, Eq)]
pub struct Running {
    /// The entity that it sends to.
    pub peer: EntityId,
    /// Its number.
    pub number: u64,
}

/// A sending lane as it was seen.
#[derive(Clone, Copy, Debug, PartialEq, Eq)]
pub struct SendingLane {
    /// Its user's number in the configuration.
    pub user: usize,
    /// The number that its next transaction gets.
    pub next: u64,
    /// The transaction that it runs, if it runs one.
    pub running: Option<Running>,
}
