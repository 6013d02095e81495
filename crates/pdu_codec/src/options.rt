//! Readers of optional fields, each a type, a length and a value (CCSDS 727.0-B-5, 5.4), and of
//! segment requests.

ghost use Rattle.std.specs.Prelude.{◌≡◌, ◌<◌, ◌≤◌, [], ◌∷◌, ◌++◌, is_some, length, IsTrue, IfOk, IfSome, OnOk};
ghost use Rattle.std.specs.Option.{option_map};
ghost use Rattle.pdu_reading.specs.Items.{items_to_end};
ghost use Rattle.pdu_values.specs.Tlvs.{location_in, messages_in, may_locate};
ghost use Rattle.pdu_reading.specs.Reading.{Gives, tlv_at, location_tlv_at, request_at};
ghost use Rattle.cfdp_types.specs.Steps.{older_or};
ghost use Rattle.pdu_codec.specs.Parts.{tlv_of_parts, messages_at, requests_at};

use crate::fields::{lv_at, number_at, number_of, octet_at};
use cfdp_types::{EntityId, Messages, Octets};
use pdu_values::{SegmentRequest, SegmentRequests};
use std::alloc::{AllocError, Global};

/// The TLV type of a message to the user.
pub const MESSAGE: u8 = 2;

/// The TLV type of an entity ID.
pub const ENTITY_ID: u8 = 6;

/// An optional field, borrowed from the datagram.
#[derive(Clone, Copy)]
pub struct TlvParts<'a> {
    pub kind: u8,
    pub value: &'a [u8],
}

/// An optional field, and the octets after it.
#[tactic(auto, unfolding(pdu_reading::specs::Reading::tlv_at))]
pub fn tlv_at(octets: &[u8]) -> Option<(TlvParts<'_>, &[u8])>
    ensures value { Gives (λ x. (tlv_of_parts x.0, x.1.now)) result (tlv_at octets.now) }
    ensures shorter { IfSome result (λ x. length x.1.now < length octets.now) }
{
    let (kind, rest) = octet_at(octets)?;
    let (value, rest) = lv_at(rest)?;
    Some((TlvParts { kind, value }, rest))
}

// Whether the field may stand among those of EOF or Finished: an entity ID must have 1 to 8 octets.
fn may_locate(tlv: TlvParts<'_>) -> bool
    ensures { result ≡ may_locate (tlv_of_parts tlv.entry) }
{
    tlv.kind != ENTITY_ID || (!tlv.value.is_empty() && tlv.value.len() <= 8)
}

/// An optional field of EOF or Finished, and the octets after it.
#[tactic(auto, unfolding(pdu_reading::specs::Reading::location_tlv_at))]
pub fn location_tlv_at(octets: &[u8]) -> Option<(TlvParts<'_>, &[u8])>
    ensures value { Gives (λ x. (tlv_of_parts x.0, x.1.now)) result (location_tlv_at octets.now) }
    ensures located { IfSome result (λ x. IsTrue (may_locate (tlv_of_parts x.0))) }
    ensures shorter { IfSome result (λ x. length x.1.now < length octets.now) }
{
    let (tlv, rest) = tlv_at(octets)?;
    if may_locate(tlv) {
        Some((tlv, rest))
    } else {
        None
    }
}

// The fault location after one more optional field was read: the first entity ID counts.
#[tactic(auto, unfolding(pdu_values::specs::Tlvs::location_in))]
fn with_field(location: Option<EntityId>, tlv: TlvParts<'_>) -> Option<EntityId>
    requires { IsTrue (may_locate (tlv_of_parts tlv)) }
    ensures { result ≡ older_or location (location_in (tlv_of_parts tlv.entry ∷ [])) }
{
    if location.is_none() && tlv.kind == ENTITY_ID {
        Some(EntityId(number_of(tlv.value)))
    } else {
        location
    }
}

/// The fault location among the optional fields of EOF or Finished: the first entity ID.
pub fn location_at(octets: &[u8]) -> Option<Option<EntityId>>
    ensures { result ≡ option_map location_in (items_to_end location_tlv_at octets.now) }
{
    let mut location = None;
    let mut rest = octets;
    while !rest.is_empty() {
        let (tlv, behind) = location_tlv_at(rest)?;
        location = with_field(location, tlv);
        rest = behind;
    }
    Some(location)
}

/// Whether octets are optional fields and nothing else.
pub fn are_options(octets: &[u8]) -> bool
    ensures { result ≡ is_some (items_to_end tlv_at octets.now) }
{
    let mut rest = octets;
    while !rest.is_empty() {
        let Some((_, behind)) = tlv_at(rest) else {
            return false;
        };
        rest = behind;
    }
    true
}

// Adds the message that an optional field holds, if it holds one.
#[tactic(auto, unfolding(pdu_values::specs::Tlvs::messages_in))]
fn add_message(alloc: Global, messages: &mut Messages, tlv: TlvParts<'_>) -> Result<(), AllocError>
    ensures { OnOk result (messages.new ≡ messages.old ++ messages_in (tlv_of_parts tlv.entry ∷ [])) }
{
    if tlv.kind == MESSAGE {
        messages.push(Octets::from_slice(alloc, tlv.value)?)?;
    }
    Ok(())
}

// How many messages to the user an optional field holds: 1 or 0.
#[tactic(auto, unfolding(pdu_values::specs::Tlvs::messages_in))]
fn messages_held(tlv: TlvParts<'_>) -> usize
    ensures value { result ≡ length (messages_in (tlv_of_parts tlv.entry ∷ [])) }
    ensures below { result < 2 }
{
    if tlv.kind == MESSAGE { 1 } else { 0 }
}

// The number of messages to the user among optional fields; their list is then allocated once.
fn message_count(octets: &[u8]) -> usize
    ensures { result ≡ length (messages_at octets.now) }
{
    let mut count = 0;
    let mut rest = octets;
    while let Some((tlv, behind)) = tlv_at(rest) {
        count += messages_held(tlv);
        rest = behind;
    }
    count
}

/// The messages to the user among optional fields.
pub fn messages_at(alloc: Global, octets: &[u8]) -> Result<Messages, AllocError>
    ensures { IfOk result (λ messages. messages ≡ messages_at octets.now) }
{
    let mut messages = Messages::with_capacity(alloc, message_count(octets))?;
    let mut rest = octets;
    while let Some((tlv, behind)) = tlv_at(rest) {
        add_message(alloc, &mut messages, tlv)?;
        rest = behind;
    }
    Ok(messages)
}

/// A segment request, and the octets after it.
#[tactic(auto, unfolding(pdu_reading::specs::Reading::request_at))]
pub fn request_at(width: u8, octets: &[u8]) -> Option<(SegmentRequest, &[u8])>
    requires least { 1 ≤ width }
    requires most { width ≤ 8 }
    ensures value { Gives (λ x. (x.0, x.1.now)) result (request_at width octets.now) }
    ensures shorter { IfSome result (λ x. length x.1.now < length octets.now) }
{
    let (start, rest) = number_at(usize::from(width), octets)?;
    let (end, rest) = number_at(usize::from(width), rest)?;
    Some((SegmentRequest { start, end }, rest))
}

/// Whether octets are segment requests and nothing else.
pub fn are_requests(width: u8, octets: &[u8]) -> bool
    requires least { 1 ≤ width }
    requires most { width ≤ 8 }
    ensures { result ≡ is_some (items_to_end (request_at width) octets.now) }
{
    let mut rest = octets;
    while !rest.is_empty() {
        let Some((_, behind)) = request_at(width, rest) else {
            return false;
        };
        rest = behind;
    }
    true
}

/// The segment requests in the octets.
pub fn requests_at(alloc: Global, width: u8, octets: &[u8]) -> Result<SegmentRequests, AllocError>
    requires least { 1 ≤ width }
    requires most { width ≤ 8 }
    ensures { IfOk result (λ requests. requests ≡ requests_at width octets.now) }
{
    let mut requests = SegmentRequests::with_capacity(
        alloc,
        octets.len() / (2 * usize::from(width)),
    )?;
    let mut rest = octets;
    while let Some((request, behind)) = request_at(width, rest) {
        requests.push(request)?;
        rest = behind;
    }
    Ok(requests)
}
