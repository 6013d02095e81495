//! Writers of fields. They append without allocating.

ghost use Rattle.std.specs.Prelude.{◌≡◌, ◌<◌, ◌≤◌, ◌+◌, ◌^◌, [], ◌∷◌, map, length};
ghost use Rattle.std.specs.List.{flat_map, AllByRecursion};
ghost use Rattle.pdu_values.specs.Numbers.{digits};
ghost use Rattle.pdu_values.specs.Tlvs.{message_tlv, location_tlvs};
ghost use Rattle.pdu_values.specs.Spelling.{lv, tlv, request, RequestFits, IsIdLength, IsLocation, IsMessage};
ghost use Rattle.pdu_codec.specs.Writing.{HasRoom, Writes};

use crate::options::{ENTITY_ID, MESSAGE};
use cfdp_types::{EntityId, Messages};
use pdu_values::{SegmentRequest, SegmentRequests, octets_for};

/// Writes a number of one octet.
#[tactic(auto, unfolding(pdu_values::specs::Numbers::digits))]
pub fn put_octet(out: &mut Vec<u8>, number: u8)
    requires { HasRoom out.old (digits 1 number) }
    ensures { Writes out.old out.new (digits 1 number) }
{
    let pushed = out.push(number);
    pushed.unwrap()
}

/// Writes octets as they are.
pub fn put_octets(out: &mut Vec<u8>, octets: &[u8])
    requires { HasRoom out.old octets.now }
    ensures { Writes out.old out.new octets.now }
{
    let added = out.extend_from_slice(octets);
    added.unwrap()
}

/// Writes a number of `width` octets, the most significant first.
pub fn put_number(out: &mut Vec<u8>, width: u8, number: u64)
    requires fits { number < 256 ^ width }
    requires short { width ≤ 8 }
    requires room { HasRoom out.old (digits width number) }
    ensures { Writes out.old out.new (digits width number) }
{
    let octets = number.to_be_bytes();
    put_octets(out, &octets[8 - usize::from(width)..]);
}

/// Writes a length in one octet, and the value.
pub fn put_lv(out: &mut Vec<u8>, value: &[u8])
    requires fits { length value.now < 256 }
    requires room { HasRoom out.old (lv value.now) }
    ensures { Writes out.old out.new (lv value.now) }
{
    put_octet(out, value.len() as u8);
    put_octets(out, value);
}

/// Writes a type, a length and a value.
pub fn put_tlv(out: &mut Vec<u8>, kind: u8, value: &[u8])
    requires fits { length value.now < 256 }
    requires room { HasRoom out.old (tlv (record { kind = kind; value = value.now })) }
    ensures { Writes out.old out.new (tlv (record { kind = kind; value = value.now })) }
{
    put_octet(out, kind);
    put_lv(out, value);
}

/// Writes the optional field of a fault location, if there is one.
pub fn put_location(out: &mut Vec<u8>, entity_octets: u8, location: Option<EntityId>)
    requires length { IsIdLength entity_octets }
    requires fits { IsLocation location }
    requires room { HasRoom out.old (flat_map tlv (location_tlvs entity_octets location)) }
    ensures { Writes out.old out.new (flat_map tlv (location_tlvs entity_octets location)) }
{
    if let Some(id) = location {
        let width = octets_for(entity_octets, id.0);
        put_octet(out, ENTITY_ID);
        put_octet(out, width);
        put_number(out, width, id.0);
    }
}

/// Writes the optional fields of messages to the user.
pub fn put_messages(out: &mut Vec<u8>, messages: &Messages)
    requires fits { AllByRecursion IsMessage messages.now }
    requires room { HasRoom out.old (flat_map tlv (map message_tlv messages.now)) }
    ensures { Writes out.old out.new (flat_map tlv (map message_tlv messages.now)) }
{
    for message in messages.as_slice() {
        put_tlv(out, MESSAGE, message.as_slice());
    }
}

// Writes a segment request.
fn put_request(out: &mut Vec<u8>, width: u8, asked: SegmentRequest)
    requires short { width ≤ 8 }
    requires fits { RequestFits width asked }
    requires room { HasRoom out.old (request width asked) }
    ensures { Writes out.old out.new (request width asked) }
{
    put_number(out, width, asked.start);
    put_number(out, width, asked.end);
}

/// Writes segment requests.
pub fn put_requests(out: &mut Vec<u8>, width: u8, requests: &SegmentRequests)
    requires short { width ≤ 8 }
    requires fits { AllByRecursion (RequestFits width) requests.now }
    requires room { HasRoom out.old (flat_map (request width) requests.now) }
    ensures { Writes out.old out.new (flat_map (request width) requests.now) }
{
    for asked in requests.as_slice() {
        put_request(out, width, *asked);
    }
}
