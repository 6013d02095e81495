//! The datagrams of a file that comes in class 1.
use std::alloc::{AllocError, Global};

// The octets of a part.
const PART: usize = 1_000;

/// Its Metadata.
pub(crate) fn metadata(sequence: u8) -> [u8; 17] {
    [
        0x24, 0, 10, 0, 1, sequence, 2, 7, 0, 0, 0, 0x03, 0xe8, 1, 0x61, 1, 0x62,
    ]
}

/// All of its octets, in one part.
pub(crate) fn part(alloc: Global, sequence: u8) -> Result<Vec<u8>, AllocError> {
    let mut octets = Vec::with_capacity(alloc, 11 + PART)?;
    for octet in [0x34, 0x03, 0xec, 0, 1, sequence, 2, 0, 0, 0, 0] {
        octets.push(octet)?;
    }
    for _ in 0..PART {
        octets.push(0x61)?;
    }
    Ok(octets)
}

/// The EOF by which its sender gives it up.
pub(crate) fn given_up(sequence: u8) -> [u8; 17] {
    [
        0x24, 0, 10, 0, 1, sequence, 2, 4, 0xf0, 0, 0, 0, 0, 0, 0, 0, 0,
    ]
}
