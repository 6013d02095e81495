//! The PDUs that a sender sends.
ghost use Rattle.std.specs.Prelude.{◌≡◌, ◌<◌, ◌≤◌, ◌^◌, ◌+◌, ◌&&◌, not, length, take, drop, IfOk};
ghost use Rattle.cfdp_types.specs.ChecksumType.{type_of};
ghost use Rattle.pdu_values.specs.Spelling.{HeaderFits, file_data_limit};
ghost use Rattle.pdu_values.specs.declared.pdu.Body.TheVariants as body;
ghost use Rattle.pdu_values.specs.declared.bodies.Acknowledged.TheVariants as acknowledged;
ghost use Rattle.pdu_values.specs.declared.bodies.TransactionStatus.TheVariants.{Terminated};
ghost use Rattle.sender_table.specs.Answers.{header_of};
ghost use Rattle.txn_events.specs.Events.{is_two};

use cfdp_types::{
    Boxed, Checksum, ChecksumType, Class, Condition, Octets, Params, PutRequest, TxnKey,
};
use pdu_values::{
    Ack, Acknowledged, Direction, FileData, Header, Metadata, Pdu, TransactionStatus, octets_for,
};
use std::alloc::{AllocError, Global};

/// The header of every PDU that the sender sends.
pub(crate) fn header_of(key: TxnKey, params: &Params, request: &PutRequest) -> Header
    ensures value { result ≡ header_of (record { key = key; params = params.now; request = request.now }) }
    ensures fits { HeaderFits result }
{
    let lengths = params.lengths();
    let id = key.source.0.max(request.destination().0);
    Header {
        direction: Direction::TowardReceiver,
        class: request.class(),
        large: false,
        entity_octets: octets_for(lengths.entity_octets, id),
        sequence_octets: octets_for(lengths.sequence_octets, key.seq),
        source: key.source,
        sequence: key.seq,
        destination: request.destination(),
    }
}

/// The Metadata PDU.
pub(crate) fn metadata(
    alloc: Global,
    header: Header,
    request: &PutRequest,
    checksum: Checksum,
) -> Result<Pdu, AllocError>
    requires header { HeaderFits header }
    requires size { length request.now.file < 2 ^ 32 }
    ensures { IfOk result (λ pdu. pdu ≡ record {
      header = header;
      body = body.Metadata (record {
        closure = not (is_two request.now.class) && request.now.closure;
        checksum_type = type_of checksum;
        size = length request.now.file;
        source_name = request.now.source_name;
        destination_name = request.now.destination_name;
        messages = request.now.messages;
      });
    }) }
{
    let metadata = Metadata {
        closure: request.class() == Class::One && request.closure(),
        checksum_type: ChecksumType::of(checksum),
        size: request.file().as_slice().len() as u64,
        source_name: request.source_name().copy()?,
        destination_name: request.destination_name().copy()?,
        messages: request.messages().copy()?,
    };
    Ok(Pdu::metadata(header, Boxed::new(alloc, metadata)?))
}

/// The File Data PDU with `count` octets of the file from `start`.
pub(crate) fn file_data(
    header: Header,
    file: &Octets,
    start: u32,
    count: u32,
) -> Result<Pdu, AllocError>
    requires header { HeaderFits header }
    requires inside { start + count ≤ length file.now }
    requires few { count ≤ file_data_limit }
    ensures { IfOk result (λ pdu. pdu ≡ record {
      header = header;
      body = body.FileData
          (record { offset = start; octets = take count (drop start file.now) });
    }) }
{
    let from = start as usize;
    let octets = file.part(from, from + count as usize)?;
    let offset = u64::from(start);
    Ok(Pdu::file_data(header, FileData { offset, octets }))
}

/// The ACK of a Finished PDU.
pub(crate) fn ack(header: Header, condition: Condition) -> Pdu
    requires { HeaderFits header }
    ensures { result ≡ record {
      header = header;
      body = body.Ack
          (record { of = acknowledged.Finished; condition = condition; status = Terminated });
    } }
{
    let of = Acknowledged::Finished;
    let status = TransactionStatus::Terminated;
    Pdu::ack(
        header,
        Ack {
            of,
            condition,
            status,
        },
    )
}
