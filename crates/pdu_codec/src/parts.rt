//! Bodies whose lists are still in the datagram.

ghost use Rattle.std.specs.Prelude.{◌≡◌, IfOk};
ghost use Rattle.pdu_codec.specs.declared.parts.Parts.TheVariants as borrowed;
ghost use Rattle.pdu_reading.specs.Reading.{Gives, eof_at, finished_at, ack_at, metadata_at, nak_at, prompt_at, keep_alive_at, file_data_at, behind_segment_metadata, delivery_of, file_status_of, transaction_status_of, prompt_of, lacks_name};
ghost use Rattle.pdu_codec.specs.Parts.{body_of_parts};
ghost use Rattle.pdu_values.specs.Requests.{size_octets};

use crate::fields::{lv_at, number_at, octet_at, octets_at, size_octets, word_at};
use crate::options::{are_options, are_requests, location_at, messages_at, requests_at};
use cfdp_types::{Boxed, ChecksumType, Condition, Delivery, EntityId, FileStatus, Octets};
use pdu_values::{
    Ack, Acknowledged, Body, Eof, FileData, Finished, KeepAlive, Metadata, Nak, Prompt,
    TransactionStatus,
};
use std::alloc::{AllocError, Global};

/// The fields of a body, with lists borrowed from the datagram.
#[derive(Clone, Copy)]
pub enum Parts<'a> {
    Eof(EofParts),
    Finished(FinishedParts),
    Ack(AckParts),
    Metadata(MetadataParts<'a>),
    Nak(NakParts<'a>),
    Prompt(Prompt),
    KeepAlive(KeepAlive),
    FileData(FileDataParts<'a>),
}

/// The fields of EOF.
#[derive(Clone, Copy)]
pub struct EofParts {
    /// Condition code and spare bits.
    pub flags: u8,
    pub checksum: u32,
    pub size: u64,
    pub location: Option<EntityId>,
}

/// The fields of Finished.
#[derive(Clone, Copy)]
pub struct FinishedParts {
    /// Condition code, spare bit, delivery code and file status.
    pub flags: u8,
    pub location: Option<EntityId>,
}

/// The fields of an ACK.
#[derive(Clone, Copy)]
pub struct AckParts {
    pub of: Acknowledged,
    /// Condition code, spare bits and transaction status.
    pub flags: u8,
}

/// The fields of Metadata, borrowed from the datagram.
#[derive(Clone, Copy)]
pub struct MetadataParts<'a> {
    /// Closure bit, checksum type and reserved bits.
    pub flags: u8,
    pub size: u64,
    pub source_name: &'a [u8],
    pub destination_name: &'a [u8],
    /// The octets of the optional fields.
    pub options: &'a [u8],
}

/// The fields of a NAK, borrowed from the datagram.
#[derive(Clone, Copy)]
pub struct NakParts<'a> {
    /// Whether offsets have eight octets instead of four.
    pub large: bool,
    pub start: u64,
    pub end: u64,
    /// The octets of the segment requests.
    pub requests: &'a [u8],
}

/// The fields of File Data, borrowed from the datagram.
#[derive(Clone, Copy)]
pub struct FileDataParts<'a> {
    pub offset: u64,
    pub octets: &'a [u8],
}

/// Reads the fields of EOF.
#[tactic(auto, unfolding(pdu_reading::specs::Reading::eof_at))]
pub fn eof_at(large: bool, octets: &[u8]) -> Option<Parts<'_>>
    ensures { Gives body_of_parts result (eof_at (size_octets large) octets.now) }
{
    let width = size_octets(large);
    let (flags, rest) = octet_at(octets)?;
    let (checksum, rest) = word_at(rest)?;
    let (size, rest) = number_at(usize::from(width), rest)?;
    let location = location_at(rest)?;
    Some(Parts::Eof(EofParts {
        flags,
        checksum,
        size,
        location,
    }))
}

/// Reads the fields of Finished.
#[tactic(auto, unfolding(pdu_reading::specs::Reading::finished_at))]
pub fn finished_at(octets: &[u8]) -> Option<Parts<'_>>
    ensures { Gives body_of_parts result (finished_at octets.now) }
{
    let (flags, rest) = octet_at(octets)?;
    let location = location_at(rest)?;
    Some(Parts::Finished(FinishedParts { flags, location }))
}

/// Reads the fields of an ACK after its first octet, which says what it acknowledges.
#[tactic(auto, unfolding(pdu_reading::specs::Reading::ack_at))]
pub fn ack_at(of: Acknowledged, octets: &[u8]) -> Option<Parts<'_>>
    ensures { Gives body_of_parts result (ack_at of octets.now) }
{
    let (flags, rest) = octet_at(octets)?;
    if !rest.is_empty() {
        return None;
    }
    Some(Parts::Ack(AckParts { of, flags }))
}

/// Reads the fields of Metadata.
#[tactic(auto, unfolding(pdu_reading::specs::Reading::metadata_at))]
pub fn metadata_at(large: bool, octets: &[u8]) -> Option<Parts<'_>>
    ensures { Gives body_of_parts result (metadata_at (size_octets large) octets.now) }
{
    let width = size_octets(large);
    let (flags, rest) = octet_at(octets)?;
    let (size, rest) = number_at(usize::from(width), rest)?;
    let (source_name, rest) = lv_at(rest)?;
    let (destination_name, options) = lv_at(rest)?;
    if !are_options(options) {
        return None;
    }
    Some(Parts::Metadata(MetadataParts {
        flags,
        size,
        source_name,
        destination_name,
        options,
    }))
}

/// Reads the fields of a NAK.
#[tactic(auto, unfolding(pdu_reading::specs::Reading::nak_at))]
pub fn nak_at(large: bool, octets: &[u8]) -> Option<Parts<'_>>
    ensures { Gives body_of_parts result (nak_at (size_octets large) octets.now) }
{
    let width = size_octets(large);
    let (start, rest) = number_at(usize::from(width), octets)?;
    let (end, requests) = number_at(usize::from(width), rest)?;
    if !are_requests(width, requests) {
        return None;
    }
    Some(Parts::Nak(NakParts {
        large,
        start,
        end,
        requests,
    }))
}

fn prompt_of(bit: u8) -> Prompt
    ensures { result ≡ prompt_of bit }
{
    if bit == 0 {
        Prompt::Nak
    } else {
        Prompt::KeepAlive
    }
}

/// Reads the field of a Prompt.
#[tactic(auto, unfolding(pdu_reading::specs::Reading::prompt_at))]
pub fn prompt_at(octets: &[u8]) -> Option<Parts<'_>>
    ensures { Gives body_of_parts result (prompt_at octets.now) }
{
    let (flags, rest) = octet_at(octets)?;
    if !rest.is_empty() {
        return None;
    }
    Some(Parts::Prompt(prompt_of(flags / 128)))
}

/// Reads the field of a Keep Alive.
#[tactic(auto, unfolding(pdu_reading::specs::Reading::keep_alive_at))]
pub fn keep_alive_at(large: bool, octets: &[u8]) -> Option<Parts<'_>>
    ensures { Gives body_of_parts result (keep_alive_at (size_octets large) octets.now) }
{
    let width = size_octets(large);
    let (progress, rest) = number_at(usize::from(width), octets)?;
    if !rest.is_empty() {
        return None;
    }
    Some(Parts::KeepAlive(KeepAlive { progress }))
}

// The octets after the segment metadata, if there is any.
#[tactic(auto, unfolding(pdu_reading::specs::Reading::behind_segment_metadata))]
fn behind_segment_metadata(has_it: bool, octets: &[u8]) -> Option<&[u8]>
    ensures { Gives (λ rest. rest.now) result (behind_segment_metadata has_it octets.now) }
{
    if !has_it {
        return Some(octets);
    }
    let (count, rest) = octet_at(octets)?;
    let (_, fields) = octets_at(usize::from(count % 64), rest)?;
    Some(fields)
}

/// Reads the fields of File Data: all octets after the offset are the file's.
#[tactic(auto, unfolding(pdu_reading::specs::Reading::file_data_at))]
pub fn file_data_at(large: bool, has_segment_metadata: bool, octets: &[u8]) -> Option<Parts<'_>>
    ensures { Gives body_of_parts result (file_data_at (size_octets large) has_segment_metadata octets.now) }
{
    let width = size_octets(large);
    let fields = behind_segment_metadata(has_segment_metadata, octets)?;
    let (offset, octets) = number_at(usize::from(width), fields)?;
    Some(Parts::FileData(FileDataParts { offset, octets }))
}

/// Whether a file name in Metadata is empty.
pub fn lacks_name(parts: &Parts<'_>) -> bool
    ensures { result ≡ lacks_name (body_of_parts parts.now) }
{
    match parts {
        Parts::Metadata(metadata) => {
            metadata.source_name.is_empty() || metadata.destination_name.is_empty()
        }
        _ => false,
    }
}

fn delivery_of(bit: u8) -> Delivery
    ensures { result ≡ delivery_of bit }
{
    if bit == 0 {
        Delivery::Complete
    } else {
        Delivery::Incomplete
    }
}

fn file_status_of(bits: u8) -> FileStatus
    ensures { result ≡ file_status_of bits }
{
    match bits {
        0 => FileStatus::Discarded,
        1 => FileStatus::Rejected,
        2 => FileStatus::Retained,
        _ => FileStatus::Unreported,
    }
}

fn transaction_status_of(bits: u8) -> TransactionStatus
    ensures { result ≡ transaction_status_of bits }
{
    match bits {
        0 => TransactionStatus::Undefined,
        1 => TransactionStatus::Active,
        2 => TransactionStatus::Terminated,
        _ => TransactionStatus::Unrecognized,
    }
}

fn metadata_of_parts(alloc: Global, parts: MetadataParts<'_>) -> Result<Body, AllocError>
    ensures { IfOk result (λ body. body ≡ body_of_parts (borrowed.Metadata parts.entry)) }
{
    let metadata = Metadata {
        closure: parts.flags / 64 % 2 == 1,
        checksum_type: ChecksumType::new(parts.flags % 16),
        size: parts.size,
        source_name: Octets::from_slice(alloc, parts.source_name)?,
        destination_name: Octets::from_slice(alloc, parts.destination_name)?,
        messages: messages_at(alloc, parts.options)?,
    };
    Ok(Body::Metadata(Boxed::new(alloc, metadata)?))
}

/// The body, with lists copied out of the datagram.
pub fn body_of_parts(alloc: Global, parts: Parts<'_>) -> Result<Body, AllocError>
    ensures { IfOk result (λ body. body ≡ body_of_parts parts.entry) }
{
    match parts {
        Parts::Eof(eof) => Ok(Body::Eof(Eof {
            condition: Condition::new(eof.flags / 16),
            checksum: eof.checksum,
            size: eof.size,
            location: eof.location,
        })),
        Parts::Finished(finished) => Ok(Body::Finished(Finished {
            condition: Condition::new(finished.flags / 16),
            delivery: delivery_of(finished.flags / 4 % 2),
            status: file_status_of(finished.flags % 4),
            location: finished.location,
        })),
        Parts::Ack(ack) => Ok(Body::Ack(Ack {
            of: ack.of,
            condition: Condition::new(ack.flags / 16),
            status: transaction_status_of(ack.flags % 4),
        })),
        Parts::Metadata(metadata) => metadata_of_parts(alloc, metadata),
        Parts::Nak(nak) => Ok(Body::Nak(Nak {
            start: nak.start,
            end: nak.end,
            requests: requests_at(alloc, size_octets(nak.large), nak.requests)?,
        })),
        Parts::Prompt(prompt) => Ok(Body::Prompt(prompt)),
        Parts::KeepAlive(keep_alive) => Ok(Body::KeepAlive(keep_alive)),
        Parts::FileData(file_data) => Ok(Body::FileData(FileData {
            offset: file_data.offset,
            octets: Octets::from_slice(alloc, file_data.octets)?,
        })),
    }
}
