use cfdp_types::{EntityId, Params};

/// The part of a configuration about a remote entity, apart from its address.
#[derive(Clone, Copy, Debug, PartialEq, Eq)]
pub struct Remote {
    /// The remote entity's ID.
    pub id: EntityId,
    /// The number of the user that its files go to; None where it only receives.
    pub user: Option<usize>,
    /// The parameters of the transactions with it.
    pub params: Params,
}

/// A remote entity and its address.
#[derive(Debug, Drop)]
pub struct Peer {
    pub remote: Remote,
    /// The address as written in the text.
    pub address: String,
}
