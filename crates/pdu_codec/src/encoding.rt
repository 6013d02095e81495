//! Encoding: from a PDU to the octets of a datagram.

ghost use Rattle.std.specs.Prelude.{◌≡◌, ◌<◌, ◌≤◌, ◌^◌, ◌+◌, ◌++◌, ◌*◌, length, map, OnOk, OnErr};
ghost use Rattle.std.specs.List.{flat_map};
ghost use Rattle.pdu_values.specs.Tlvs.{message_tlv, location_tlvs};
ghost use Rattle.pdu_values.specs.Spelling as spelling;
ghost use Rattle.pdu_codec.specs.Writing.{HasRoom, Writes, field_of, header_of, text_of, FieldFits};

use crate::fields::size_octets;
use crate::writing::{
    put_location, put_lv, put_messages, put_number, put_octet, put_octets, put_requests,
};
use cfdp_types::{Class, Delivery, EntityId, FileStatus, Messages};
use pdu_values::{
    Ack, Acknowledged, Body, Direction, Eof, FileData, Finished, Header, KeepAlive, Metadata, Nak,
    Pdu, Prompt, TransactionStatus, octets_for,
};
use std::alloc::AllocError;

// ---- the length of the data field

// Length of the optional field for a fault location, in octets.
fn location_size(entity_octets: u8, location: Option<EntityId>) -> usize
    requires length { spelling.IsIdLength entity_octets }
    requires fits { spelling.IsLocation location }
    ensures value { result ≡ length (flat_map spelling.tlv (location_tlvs entity_octets location)) }
    ensures below { result < 11 }
{
    match location {
        None => 0,
        Some(id) => 2 + usize::from(octets_for(entity_octets, id.0)),
    }
}

// Length of the optional fields for messages to the user, in octets.
#[tactic(auto, unfolding(pdu_values::specs::Numbers::digits))]
fn messages_size(messages: &Messages) -> usize
    requires { length (flat_map spelling.tlv (map message_tlv messages.now)) < 2 ^ 16 }
    ensures { result ≡ length (flat_map spelling.tlv (map message_tlv messages.now)) }
{
    let mut size = 0;
    for message in messages.as_slice() {
        size += 2 + message.as_slice().len();
    }
    size
}

// Length of the data field, in octets.
#[tactic(auto, unfolding(pdu_values::specs::Numbers::digits))]
fn field_size(width: u8, entity_octets: u8, body: &Body) -> usize
    requires fits { FieldFits width entity_octets body.now }
    requires short { width ≤ 8 }
    ensures { result ≡ length (field_of width entity_octets body.now) }
{
    let wide = usize::from(width);
    match body {
        Body::Eof(eof) => 6 + wide + location_size(entity_octets, eof.location),
        Body::Finished(finished) => 2 + location_size(entity_octets, finished.location),
        Body::Ack(_) => 3,
        Body::Metadata(metadata) => {
            let metadata = metadata.get();
            4 + wide
                + metadata.source_name.as_slice().len()
                + metadata.destination_name.as_slice().len()
                + messages_size(&metadata.messages)
        }
        Body::Nak(nak) => { 1 + 2 * wide + 2 * wide * nak.requests.as_slice().len() }
        Body::Prompt(_) => 2,
        Body::KeepAlive(_) => 1 + wide,
        Body::FileData(segment) => wide + segment.octets.as_slice().len(),
    }
}

// ---- the fixed header

// Length of the fixed header, in octets.
fn header_size(header: &Header) -> usize
    requires { spelling.HeaderFits header.now }
    ensures value { result ≡ 4 + length (spelling.ids header.now) }
    ensures below { result < 29 }
{
    4 + 2 * usize::from(header.entity_octets) + usize::from(header.sequence_octets)
}

fn type_bit(body: &Body) -> u8
    ensures value { result ≡ spelling.type_bit body.now }
    ensures below { result < 2 }
{
    match body {
        Body::FileData(_) => 1,
        _ => 0,
    }
}

fn direction_bit(direction: Direction) -> u8
    ensures value { result ≡ spelling.direction_bit direction }
    ensures below { result < 2 }
{
    match direction {
        Direction::TowardReceiver => 0,
        Direction::TowardSender => 1,
    }
}

fn mode_bit(class: Class) -> u8
    ensures value { result ≡ spelling.mode_bit class }
    ensures below { result < 2 }
{
    match class {
        Class::Two => 0,
        Class::One => 1,
    }
}

fn put_ids(out: &mut Vec<u8>, header: &Header)
    requires fits { spelling.HeaderFits header.now }
    requires room { HasRoom out.old (spelling.ids header.now) }
    ensures { Writes out.old out.new (spelling.ids header.now) }
{
    put_number(out, header.entity_octets, header.source.0);
    put_number(out, header.sequence_octets, header.sequence);
    put_number(out, header.entity_octets, header.destination.0);
}

// ---- the data fields

fn put_eof(out: &mut Vec<u8>, width: u8, entity_octets: u8, eof: &Eof)
    requires short { width ≤ 8 }
    requires length { spelling.IsIdLength entity_octets }
    requires fits { spelling.EofFits width eof.now }
    requires room { HasRoom out.old
        (spelling.eof width 0 (location_tlvs entity_octets eof.now.location) eof.now) }
    ensures { Writes out.old out.new
        (spelling.eof width 0 (location_tlvs entity_octets eof.now.location) eof.now) }
{
    put_octet(out, 16 * eof.condition.code());
    put_number(out, 4, u64::from(eof.checksum));
    put_number(out, width, eof.size);
    put_location(out, entity_octets, eof.location);
}

fn delivery_bit(delivery: Delivery) -> u8
    ensures value { result ≡ spelling.delivery_bit delivery }
    ensures below { result < 2 }
{
    match delivery {
        Delivery::Complete => 0,
        Delivery::Incomplete => 1,
    }
}

fn file_status_bits(status: FileStatus) -> u8
    ensures value { result ≡ spelling.file_status_bits status }
    ensures below { result < 4 }
{
    match status {
        FileStatus::Discarded => 0,
        FileStatus::Rejected => 1,
        FileStatus::Retained => 2,
        FileStatus::Unreported => 3,
    }
}

fn put_finished(out: &mut Vec<u8>, entity_octets: u8, finished: &Finished)
    requires length { spelling.IsIdLength entity_octets }
    requires fits { spelling.FinishedFits finished.now }
    requires room { HasRoom out.old
        (spelling.finished 0 (location_tlvs entity_octets finished.now.location) finished.now) }
    ensures { Writes out.old out.new
        (spelling.finished 0 (location_tlvs entity_octets finished.now.location) finished.now) }
{
    let flags = 16 * finished.condition.code()
        + 4 * delivery_bit(finished.delivery)
        + file_status_bits(finished.status);
    put_octet(out, flags);
    put_location(out, entity_octets, finished.location);
}

fn acknowledged_code(of: Acknowledged) -> u8
    ensures value { result ≡ spelling.acknowledged_code of }
    ensures below { result < 16 }
{
    match of {
        Acknowledged::Eof => 4,
        Acknowledged::Finished => 5,
    }
}

fn acknowledged_subtype(of: Acknowledged) -> u8
    ensures value { result ≡ spelling.acknowledged_subtype of }
    ensures below { result < 2 }
{
    match of {
        Acknowledged::Eof => 0,
        Acknowledged::Finished => 1,
    }
}

fn transaction_status_bits(status: TransactionStatus) -> u8
    ensures value { result ≡ spelling.transaction_status_bits status }
    ensures below { result < 4 }
{
    match status {
        TransactionStatus::Undefined => 0,
        TransactionStatus::Active => 1,
        TransactionStatus::Terminated => 2,
        TransactionStatus::Unrecognized => 3,
    }
}

fn put_ack(out: &mut Vec<u8>, ack: &Ack)
    requires { HasRoom out.old (spelling.ack (spelling.acknowledged_subtype ack.now.of) 0 ack.now) }
    ensures { Writes out.old out.new (spelling.ack (spelling.acknowledged_subtype ack.now.of) 0 ack.now) }
{
    put_octet(
        out,
        16 * acknowledged_code(ack.of) + acknowledged_subtype(ack.of),
    );
    put_octet(
        out,
        16 * ack.condition.code() + transaction_status_bits(ack.status),
    );
}

fn put_metadata(out: &mut Vec<u8>, width: u8, metadata: &Metadata)
    requires short { width ≤ 8 }
    requires fits { spelling.MetadataFits width metadata.now }
    requires room { HasRoom out.old
        (spelling.metadata width 0 0 (map message_tlv metadata.now.messages) metadata.now) }
    ensures { Writes out.old out.new
        (spelling.metadata width 0 0 (map message_tlv metadata.now.messages) metadata.now) }
{
    put_octet(
        out,
        64 * u8::from(metadata.closure) + metadata.checksum_type.number(),
    );
    put_number(out, width, metadata.size);
    put_lv(out, metadata.source_name.as_slice());
    put_lv(out, metadata.destination_name.as_slice());
    put_messages(out, &metadata.messages);
}

fn put_nak(out: &mut Vec<u8>, width: u8, nak: &Nak)
    requires short { width ≤ 8 }
    requires fits { spelling.NakFits width nak.now }
    requires room { HasRoom out.old (spelling.nak width nak.now) }
    ensures { Writes out.old out.new (spelling.nak width nak.now) }
{
    put_number(out, width, nak.start);
    put_number(out, width, nak.end);
    put_requests(out, width, &nak.requests);
}

fn put_prompt(out: &mut Vec<u8>, prompt: Prompt)
    requires { HasRoom out.old (spelling.prompt 0 prompt) }
    ensures { Writes out.old out.new (spelling.prompt 0 prompt) }
{
    match prompt {
        Prompt::Nak => put_octet(out, 0),
        Prompt::KeepAlive => put_octet(out, 128),
    }
}

fn put_file_data(out: &mut Vec<u8>, width: u8, segment: &FileData)
    requires short { width ≤ 8 }
    requires fits { spelling.FileDataFits width segment.now }
    requires room { HasRoom out.old (spelling.file_data width segment.now) }
    ensures { Writes out.old out.new (spelling.file_data width segment.now) }
{
    put_number(out, width, segment.offset);
    put_octets(out, segment.octets.as_slice());
}

// Writes the data field: a directive's code and its fields, or a file segment.
fn put_field(out: &mut Vec<u8>, width: u8, entity_octets: u8, body: &Body)
    requires short { width ≤ 8 }
    requires fits { FieldFits width entity_octets body.now }
    requires room { HasRoom out.old (field_of width entity_octets body.now) }
    ensures { Writes out.old out.new (field_of width entity_octets body.now) }
{
    match body {
        Body::Eof(eof) => {
            put_octet(out, 4);
            put_eof(out, width, entity_octets, eof);
        }
        Body::Finished(finished) => {
            put_octet(out, 5);
            put_finished(out, entity_octets, finished);
        }
        Body::Ack(ack) => {
            put_octet(out, 6);
            put_ack(out, ack);
        }
        Body::Metadata(metadata) => {
            put_octet(out, 7);
            put_metadata(out, width, metadata.get());
        }
        Body::Nak(nak) => {
            put_octet(out, 8);
            put_nak(out, width, nak);
        }
        Body::Prompt(prompt) => {
            put_octet(out, 9);
            put_prompt(out, *prompt);
        }
        Body::KeepAlive(keep_alive) => {
            put_octet(out, 12);
            put_number(out, width, keep_alive.progress);
        }
        Body::FileData(segment) => put_file_data(out, width, segment),
    }
}

// Writes the fixed header before a data field of `size` octets.
fn put_header(out: &mut Vec<u8>, header: &Header, type_bit: u8, size: u16)
    requires fits { spelling.HeaderFits header.now }
    requires kind { type_bit < 2 }
    requires room { HasRoom out.old (header_of type_bit size header.now) }
    ensures { Writes out.old out.new (header_of type_bit size header.now) }
{
    let first = 32
        + 16 * type_bit
        + 8 * direction_bit(header.direction)
        + 4 * mode_bit(header.class)
        + u8::from(header.large);
    put_octet(out, first);
    put_number(out, 2, u64::from(size));
    put_octet(
        out,
        16 * (header.entity_octets - 1) + (header.sequence_octets - 1),
    );
    put_ids(out, header);
}

// Writes a PDU without allocating.
fn put_pdu(out: &mut Vec<u8>, header: &Header, body: &Body, size: u16)
    requires header_fits { spelling.HeaderFits header.now }
    requires body_fits { FieldFits (spelling.size_octets header.now.large) header.now.entity_octets body.now }
    requires room { HasRoom out.old (text_of size header.now body.now) }
    ensures { Writes out.old out.new (text_of size header.now body.now) }
{
    put_header(out, header, type_bit(body), size);
    put_field(out, size_octets(header.large), header.entity_octets, body);
}

/// Appends the octets of a PDU to `out`: all spare bits zero, and only the optional fields that the PDU needs.
/// Allocates at most once.
pub fn encode(pdu: &Pdu, out: &mut Vec<u8>) -> Result<(), AllocError>
    ensures ok { OnOk result (out.new.items ≡ out.old.items ++ spelling.written pdu.now) }
    ensures err { OnErr result (out.new.items ≡ out.old.items) }
{
    let (header, body) = pdu.parts();
    let size = field_size(size_octets(header.large), header.entity_octets, body);
    out.reserve(header_size(header) + size)?;
    put_pdu(out, header, body, size as u16);
    Ok(())
}
