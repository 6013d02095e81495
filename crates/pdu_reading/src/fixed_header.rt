//! The numbers of the fixed header as they are in the octets (CCSDS 727.0-B-5, 5.1).

/// The fixed header as read: its numbers before they are interpreted.
#[derive(Clone, Copy, Debug)]
pub struct FixedHeader {
    /// The first octet: version, PDU type, direction, mode, CRC flag and large file flag.
    pub first: u8,
    /// Octets in the data field.
    pub size: u16,
    /// The fourth octet: segmentation control, segment metadata flag, and the lengths of IDs and sequence number.
    pub lengths: u8,
    pub source: u64,
    pub sequence: u64,
    pub destination: u64,
}

impl FixedHeader {
    ghost use Rattle.std.specs.Prelude.{◌≡◌};
    ghost use Rattle.pdu_reading.specs.FixedHeader.{entity_octets, sequence_octets, has_segment_metadata, is_file_data, is_large};

    /// Octets of an entity ID.
    pub fn entity_octets(&self) -> u8
        ensures { result ≡ entity_octets self.now.lengths }
    {
        self.lengths / 16 % 8 + 1
    }

    /// Octets of the sequence number.
    pub fn sequence_octets(&self) -> u8
        ensures { result ≡ sequence_octets self.now.lengths }
    {
        self.lengths % 8 + 1
    }

    /// Whether segment metadata precedes the file data.
    pub fn has_segment_metadata(&self) -> bool
        ensures { result ≡ has_segment_metadata self.now.lengths }
    {
        self.lengths / 8 % 2 == 1
    }

    /// Whether sizes and offsets have eight octets instead of four.
    pub fn is_large(&self) -> bool
        ensures { result ≡ is_large self.now.first }
    {
        self.first % 2 == 1
    }

    /// Whether the PDU is File Data rather than a directive.
    pub fn is_file_data(&self) -> bool
        ensures { result ≡ is_file_data self.now.first }
    {
        self.first / 16 % 2 == 1
    }
}
