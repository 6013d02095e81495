use indications::Bundle;
use std::collections::LinkedList;

/// What the outlet of a lane knows. Used only in contracts: no value is ever made.
pub struct OutletView {
    /// The user's number.
    pub user: usize,
    /// How many bundles the queue has room for.
    pub room: usize,
    /// The lane's number among the user's lanes.
    pub lane: usize,
    /// All that the lane has sent.
    pub sent: LinkedList<Bundle>,
}

/// What a port, the end of a queue from which its user takes, knows. Used only in contracts: no value is ever made.
pub struct PortView {
    /// The user's number.
    pub user: usize,
    /// How many bundles the queue has room for.
    pub room: usize,
    /// All that the user has taken.
    pub taken: LinkedList<Bundle>,
    /// For each lane that was given an outlet: all that it sent, once the outlet was given back; None until then.
    pub known: LinkedList<Option<LinkedList<Bundle>>>,
}

/// What the holder of a pass knows about the queue. Used only in contracts: no value is ever made.
pub enum View {
    /// The first pass, from which no port was made yet.
    Origin,
    Port(PortView),
    Outlet(OutletView),
    /// A pass that permits no more steps.
    Spent,
}
