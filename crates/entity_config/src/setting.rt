use cfdp_types::{Checksum, Condition, Handler, Role};

/// A change to a configuration. Limits, handlers and the checksum change for every remote entity.
#[derive(Clone, Copy, Debug, PartialEq, Eq)]
pub enum Setting {
    /// How many bundles each user's queue has room for.
    Capacity(u64),
    /// The sequence number that each sending lane begins with.
    First(u64),
    /// Which expiration of the timer for acknowledgements is a fault.
    AckLimit(u64),
    NakLimit(u64),
    CheckLimit(u64),
    Handler(Role, Condition, Handler),
    /// The checksum of the files that the entity sends.
    Checksum(Checksum),
}
