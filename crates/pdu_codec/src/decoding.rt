//! Decoding: from the octets of a datagram to a PDU.

ghost use Rattle.std.specs.Prelude.{◌≡◌, ◌⊎◌, IsOk, IfOk, IfErr};
ghost use Rattle.std.specs.Option.{option_map};
ghost use Rattle.pdu_values.specs.Pdu.{PduValue};
ghost use Rattle.pdu_values.specs.Spelling.{Spells};
ghost use Rattle.pdu_values.specs.Requests.{size_octets};
ghost use Rattle.pdu_reading.specs.Reading.{Gives, Answers, whole_body, acknowledged_with_code, ack_of, fields_of, directive_of, body_of, reading, number_at, IsUnlessMemory, IsFound};
ghost use Rattle.pdu_reading.specs.FirstFault.{IsFirstFault};
ghost use Rattle.pdu_codec.specs.Parts.{body_of_parts};

use crate::fields::octet_at;
use crate::fixed_header;
use crate::parts::{self, Parts};
use pdu_reading::{DecodeFault, FixedHeader};
use pdu_values::{Acknowledged, Directive, Header, Pdu};
use std::alloc::Global;

// The body, or its fault where the fields could not be read or a file name is empty.
fn whole_body(found: Option<Parts<'_>>) -> Result<Parts<'_>, DecodeFault>
    ensures { Answers body_of_parts result (whole_body (option_map body_of_parts found.entry)) }
{
    let Some(parts) = found else {
        return Err(DecodeFault::FieldCut);
    };
    if parts::lacks_name(&parts) {
        return Err(DecodeFault::NoFileName);
    }
    Ok(parts)
}

fn acknowledged_with_code(code: u8) -> Option<Acknowledged>
    ensures { result ≡ acknowledged_with_code code }
{
    match code {
        4 => Some(Acknowledged::Eof),
        5 => Some(Acknowledged::Finished),
        _ => None,
    }
}

// The body of an ACK, from the octets after the directive code.
fn acknowledgement(octets: &[u8]) -> Result<Parts<'_>, DecodeFault>
    ensures { Answers body_of_parts result (ack_of (number_at 1 octets.now)) }
{
    let (flags, rest) = octet_at(octets).ok_or(DecodeFault::FieldCut)?;
    let of = acknowledged_with_code(flags / 16).ok_or(DecodeFault::UnknownDirective)?;
    whole_body(parts::ack_at(of, rest))
}

// The body of a directive, from the octets after its code.
fn fields(large: bool, directive: Directive, octets: &[u8]) -> Result<Parts<'_>, DecodeFault>
    ensures { Answers body_of_parts result (fields_of (size_octets large) (Some directive) octets.now) }
{
    match directive {
        Directive::Eof => whole_body(parts::eof_at(large, octets)),
        Directive::Finished => whole_body(parts::finished_at(octets)),
        Directive::Ack => acknowledgement(octets),
        Directive::Metadata => whole_body(parts::metadata_at(large, octets)),
        Directive::Nak => whole_body(parts::nak_at(large, octets)),
        Directive::Prompt => whole_body(parts::prompt_at(octets)),
        Directive::KeepAlive => whole_body(parts::keep_alive_at(large, octets)),
    }
}

// The body of a directive, from its code and the octets after it.
fn directive(large: bool, octets: &[u8]) -> Result<Parts<'_>, DecodeFault>
    ensures { Answers body_of_parts result (directive_of (size_octets large) (number_at 1 octets.now)) }
{
    let (code, rest) = octet_at(octets).ok_or(DecodeFault::FieldCut)?;
    let directive = Directive::with_code(code).ok_or(DecodeFault::UnknownDirective)?;
    fields(large, directive, rest)
}

// The body in a data field.
#[tactic(auto, unfolding(pdu_reading::specs::Reading::body_of))]
fn body<'a>(fixed_header: &FixedHeader, field: &'a [u8]) -> Result<Parts<'a>, DecodeFault>
    ensures { Answers body_of_parts result (body_of fixed_header.now field.now) }
{
    let large = fixed_header.is_large();
    if fixed_header.is_file_data() {
        whole_body(parts::file_data_at(large, fixed_header.has_segment_metadata(), field))
    } else {
        directive(large, field)
    }
}

// The whole PDU, with lists still borrowed from the datagram.
#[tactic(auto, unfolding(pdu_reading::specs::Reading::reading))]
fn pdu_parts(octets: &[u8]) -> Result<(Header, Parts<'_>), DecodeFault>
    ensures { Answers (λ x. record { header = x.0; body = body_of_parts x.1 }) result (reading octets.now) }
{
    let (fixed_header, field) = fixed_header::fixed_header_at(octets).ok_or(DecodeFault::TooShort)?;
    if let Some(fault) = fixed_header::fixed_header_fault(&fixed_header, field) {
        return Err(fault);
    }
    let parts = body(&fixed_header, field)?;
    Ok((fixed_header::header_of(&fixed_header), parts))
}

// As `decode`, with the contract stated by `reading` alone.
fn read(alloc: Global, octets: &[u8]) -> Result<Pdu, DecodeFault>
    ensures { IsUnlessMemory result (reading octets.now) }
{
    let (header, parts) = pdu_parts(octets)?;
    let body = parts::body_of_parts(alloc, parts)?;
    Ok(Pdu::new(header, body))
}

/// Decodes the octets of a datagram; an error is the first fault.
pub fn decode(alloc: Global, octets: &[u8]) -> Result<Pdu, DecodeFault>
    // The octets spell the PDU that is returned.
    ensures found { IfOk result (λ pdu. Spells octets.now pdu) }

    // A PDU that the octets spell is returned, unless memory runs out.
    ensures only { (pdu : PduValue) → Spells octets.now pdu → IsFound result pdu }

    // The result is what the octets read as, and the fault is the first by the places of the octets. Memory can run
    // out only where nothing else is wrong.
    ensures exact { IsUnlessMemory result (reading octets.now) }
    ensures first { IfErr result (λ fault. (fault ≡ DecodeFault.NoMemory) ⊎ IsFirstFault octets.now fault) }
    ensures memory { result ≡ Err DecodeFault.NoMemory → IsOk (reading octets.now) }
{
    read(alloc, octets)
}
