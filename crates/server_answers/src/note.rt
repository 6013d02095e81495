use cfdp_types::{EntityId, Role};

/// Something that makes little sense in a configuration.
#[derive(Clone, Copy, Debug, PartialEq, Eq)]
pub enum Note {
    /// Transaction numbers have one octet: 256 numbers for all lanes together.
    ShortNumbers,
    /// A peer with the same configuration may have so many files open at once, but there are fewer receiving lanes.
    FewLanes { files: u64, lanes: u64 },
    /// Files of a remote entity go to no user.
    NoUser { remote: EntityId },
    /// A fault in this role suspends the transaction.
    Suspends { remote: EntityId, role: Role },
    /// A silent remote entity is given up within this many milliseconds, less than a second.
    SoonGivenUp { remote: EntityId, milliseconds: u64 },
    /// A transaction ends by inactivity before anything is sent again.
    NothingAgain { remote: EntityId },
}
