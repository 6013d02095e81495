//! PDUs in words. Each function appends to `text`; after an `Err` the text is not to be used.
ghost use Rattle.std.specs.Prelude.{◌≡◌, ◌++◌, IfOk, OnOk, string_bytes};
ghost use Rattle.script_explained.specs.Words.{ack_text, acknowledged_words, body_text, checksum_text, checksum_words, class_words, closure_words, direction_words, eof_text, finished_text, keep_alive_text, location_text, metadata_text, nak_text, request_text, segment_text, transaction_text, way_text};

use crate::names::{delivery_words, file_words, push_condition, push_name, status_words};
use cfdp_types::{ChecksumType, Class, EntityId};
use pdu_values::{
    Ack, Acknowledged, Body, Direction, Eof, FileData, Finished, Header, KeepAlive, Metadata, Nak,
    Pdu, Prompt, SegmentRequest,
};
use std::alloc::{AllocError, Global};

/// Adds what a PDU says, without a line feed.
pub fn push_pdu_words(alloc: Global, text: &mut String, pdu: &Pdu) -> Result<(), AllocError>
    ensures { OnOk result (string_bytes text.new ≡ string_bytes text.old ++ body_text pdu.now.body) }
{
    match pdu.body() {
        Body::Eof(eof) => push_eof(alloc, text, eof),
        Body::Finished(finished) => push_finished(text, finished),
        Body::Ack(ack) => push_ack(text, ack),
        Body::Metadata(metadata) => push_metadata(alloc, text, metadata.get()),
        Body::Nak(nak) => push_nak(text, nak),
        Body::Prompt(Prompt::Nak) => text.push_str("Prompt for a NAK"),
        Body::Prompt(Prompt::KeepAlive) => text.push_str("Prompt for a Keep Alive"),
        Body::KeepAlive(keep_alive) => push_keep_alive(text, keep_alive),
        Body::FileData(segment) => push_file_data(text, segment),
    }
}

/// Adds the transaction that the header of a PDU names, and its destination.
pub fn push_transaction_words(text: &mut String, header: &Header) -> Result<(), AllocError>
    ensures { OnOk result (string_bytes text.new ≡ string_bytes text.old ++ transaction_text header.now) }
{
    let source = header.source.0;
    let sequence = header.sequence;
    let destination = header.destination.0;
    write!(
        text,
        "transaction {sequence} of entity {source} to entity {destination}"
    )
}

/// Adds the class that the header of a PDU names, and the end that it goes to.
pub fn push_way_words(text: &mut String, header: &Header) -> Result<(), AllocError>
    ensures { OnOk result (string_bytes text.new ≡ string_bytes text.old ++ way_text header.now) }
{
    let class = class_words(header.class);
    let direction = direction_words(header.direction);
    write!(text, "{class}, toward the {direction}")
}

fn class_words(class: Class) -> &'static str
    ensures { result.now ≡ class_words class }
{
    match class {
        Class::One => "class 1",
        Class::Two => "class 2",
    }
}

fn direction_words(direction: Direction) -> &'static str
    ensures { result.now ≡ direction_words direction }
{
    match direction {
        Direction::TowardReceiver => "receiver",
        Direction::TowardSender => "sender",
    }
}

fn push_eof(alloc: Global, text: &mut String, eof: &Eof) -> Result<(), AllocError>
    ensures { OnOk result (string_bytes text.new ≡ string_bytes text.old ++ eof_text eof.now) }
{
    let size = eof.size;
    let checksum = checksum_text(alloc, eof.checksum)?;
    text.push_str("EOF: ")?;
    push_condition(text, eof.condition)?;
    write!(text, ", {size} octets, checksum ")?;
    text.push_str(checksum.as_str())?;
    push_location(text, eof.location)
}

// A checksum in eight hex digits.
fn checksum_text(alloc: Global, checksum: u32) -> Result<String, AllocError>
    ensures { IfOk result (λ text. string_bytes text ≡ checksum_text checksum) }
{
    hex::encode(alloc, checksum.to_be_bytes())
}

fn push_location(text: &mut String, location: Option<EntityId>) -> Result<(), AllocError>
    ensures { OnOk result (string_bytes text.new ≡ string_bytes text.old ++ location_text location) }
{
    match location {
        None => Ok(()),
        Some(id) => {
            let id = id.0;
            write!(text, ", by entity {id}")
        }
    }
}

fn push_finished(text: &mut String, finished: &Finished) -> Result<(), AllocError>
    ensures { OnOk result (string_bytes text.new ≡ string_bytes text.old ++ finished_text finished.now) }
{
    let delivery = delivery_words(finished.delivery);
    let status = file_words(finished.status);
    text.push_str("Finished: ")?;
    push_condition(text, finished.condition)?;
    write!(text, ", {delivery}, {status}")?;
    push_location(text, finished.location)
}

fn acknowledged_words(of: Acknowledged) -> &'static str
    ensures { result.now ≡ acknowledged_words of }
{
    match of {
        Acknowledged::Eof => "EOF",
        Acknowledged::Finished => "Finished",
    }
}

fn push_ack(text: &mut String, ack: &Ack) -> Result<(), AllocError>
    ensures { OnOk result (string_bytes text.new ≡ string_bytes text.old ++ ack_text ack.now) }
{
    let of = acknowledged_words(ack.of);
    let status = status_words(ack.status);
    write!(text, "ACK of the {of}: ")?;
    push_condition(text, ack.condition)?;
    write!(text, ", {status}")
}

fn checksum_words(kind: ChecksumType) -> &'static str
    ensures { result.now ≡ checksum_words kind }
{
    match kind.number() {
        0 => "modular checksum",
        15 => "null checksum",
        _ => "another checksum",
    }
}

fn closure_words(closure: bool) -> &'static str
    ensures { result.now ≡ closure_words closure }
{
    if closure { ", closure requested" } else { "" }
}

fn push_metadata(alloc: Global, text: &mut String, metadata: &Metadata) -> Result<(), AllocError>
    ensures { OnOk result (string_bytes text.new ≡ string_bytes text.old ++ metadata_text metadata.now) }
{
    let size = metadata.size;
    let checksum = checksum_words(metadata.checksum_type);
    let closure = closure_words(metadata.closure);
    write!(text, "Metadata: {size} octets, ")?;
    push_name(alloc, text, metadata.source_name.as_slice())?;
    text.push_str(" to ")?;
    push_name(alloc, text, metadata.destination_name.as_slice())?;
    write!(text, ", {checksum}{closure}")
}

fn push_nak(text: &mut String, nak: &Nak) -> Result<(), AllocError>
    ensures { OnOk result (string_bytes text.new ≡ string_bytes text.old ++ nak_text nak.now) }
{
    text.push_str("NAK")?;
    for request in nak.requests.as_slice() {
        push_request(text, *request)?;
    }
    Ok(())
}

// Adds what a segment request of a NAK asks for; 0 to 0 means the Metadata.
fn push_request(text: &mut String, request: SegmentRequest) -> Result<(), AllocError>
    ensures { OnOk result (string_bytes text.new ≡ string_bytes text.old ++ request_text request) }
{
    let SegmentRequest { start, end } = request;
    if end > start {
        let last = end - 1;
        write!(text, ", asks for octets {start} to {last}")
    } else if end == 0 {
        text.push_str(", asks for the Metadata")
    } else {
        write!(text, ", asks for nothing at {start}")
    }
}

fn push_keep_alive(text: &mut String, keep_alive: &KeepAlive) -> Result<(), AllocError>
    ensures { OnOk result (string_bytes text.new ≡ string_bytes text.old ++ keep_alive_text keep_alive.now) }
{
    let progress = keep_alive.progress;
    write!(text, "Keep Alive: {progress} octets so far")
}

fn push_file_data(text: &mut String, segment: &FileData) -> Result<(), AllocError>
    ensures { OnOk result (string_bytes text.new ≡ string_bytes text.old ++ segment_text segment.now) }
{
    let count = segment.octets.as_slice().len();
    let offset = segment.offset;
    write!(text, "File Data: {count} octets at {offset}")
}
