use cfdp_types::{EntityId, HeaderLengths};

/// The part of a configuration about the entity itself.
#[derive(Clone, Copy, Debug, PartialEq, Eq)]
pub struct EntitySettings {
    /// The entity's ID.
    pub local: EntityId,
    /// The octets of IDs and of sequence numbers in the headers that the entity writes.
    pub lengths: HeaderLengths,
    /// The sequence number that each sending lane begins with.
    pub first: u64,
    /// The number of sending lanes of each user.
    pub put_lanes: usize,
    /// The number of receiving lanes of each source.
    pub receive_lanes: usize,
    /// How many bundles each user's queue has room for.
    pub capacity: usize,
    /// The most file octets in a File Data PDU that the entity sends.
    pub segment_octets: u16,
}
