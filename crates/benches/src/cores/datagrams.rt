//! The datagrams of a transaction in class 2: entity 1 sends a file to entity 2 as transaction 5.
use crate::fault::Fault;
use cfdp_types::{EntityId, TxnKey};
use pdu_codec::{Pdu, decode};
use std::alloc::Global;

/// The transaction of the datagrams.
pub(crate) const KEY: TxnKey = TxnKey {
    source: EntityId(1),
    seq: 5,
};

// The first octet of a directive toward the receiver, and of File Data.
const DIRECTIVE: u8 = 0x20;

const FILE_DATA: u8 = 0x30;

/// The first octet of a directive toward the sender.
pub(crate) const TOWARD_SENDER: u8 = 0x28;

/// The Metadata of a file.
pub(crate) fn metadata(alloc: Global, size: u32) -> Result<Pdu, Fault> {
    arrival(
        alloc,
        DIRECTIVE,
        &[&[7, 0], &size.to_be_bytes(), b"\x01a\x01b"],
    )
}

/// The EOF of a file.
pub(crate) fn eof(alloc: Global, checksum: u32, size: u32) -> Result<Pdu, Fault> {
    arrival(
        alloc,
        DIRECTIVE,
        &[&[4, 0], &checksum.to_be_bytes(), &size.to_be_bytes()],
    )
}

/// The EOF with which the sender cancels.
pub(crate) fn cancel(alloc: Global) -> Result<Pdu, Fault> {
    arrival(alloc, DIRECTIVE, &[&[4, 0xF0], &[0; 8], &[6, 1, 1]])
}

/// Octets of a file at an offset.
pub(crate) fn file_data(alloc: Global, offset: u32, octets: &[u8]) -> Result<Pdu, Fault> {
    arrival(alloc, FILE_DATA, &[&offset.to_be_bytes(), octets])
}

/// A Prompt for a NAK.
pub(crate) fn prompt(alloc: Global) -> Result<Pdu, Fault> {
    arrival(alloc, DIRECTIVE, &[&[9, 0]])
}

/// The PDU of a datagram with this first octet, whose data field has these parts.
pub(crate) fn arrival(alloc: Global, first: u8, parts: &[&[u8]]) -> Result<Pdu, Fault> {
    let mut size = 0usize;
    for part in parts {
        size = size.saturating_add(part.len());
    }
    let mut octets = Vec::with_capacity(alloc, size.saturating_add(7))?;
    octets.push(first)?;
    octets.extend_from_slice(&(u16::try_from(size)?).to_be_bytes())?;
    octets.extend_from_slice(&[0, 1, 5, 2])?;
    for part in parts {
        octets.extend_from_slice(part)?;
    }
    Ok(decode(alloc, octets.as_slice())?)
}
