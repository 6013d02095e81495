//! The fixed header: its numbers as they are in the octets, and what they mean.

ghost use Rattle.std.specs.Prelude.{◌≡◌};
ghost use Rattle.pdu_reading.specs.FixedHeader.{header_of, direction_of, class_of};
ghost use Rattle.pdu_reading.specs.Reading.{Gives, fixed_header_at, fixed_header_fault};

use crate::fields::{number_at, octet_at, pair_at};
use cfdp_types::{Class, EntityId};
use pdu_reading::{DecodeFault, FixedHeader};
use pdu_values::{Direction, Header};

/// The header's numbers, and the octets after them.
#[tactic(auto, unfolding(pdu_reading::specs::Reading::fixed_header_at))]
pub fn fixed_header_at(octets: &[u8]) -> Option<(FixedHeader, &[u8])>
    ensures { Gives (λ x. (x.0, x.1.now)) result (fixed_header_at octets.now) }
{
    let (first, rest) = octet_at(octets)?;
    let (size, rest) = pair_at(rest)?;
    let (lengths, rest) = octet_at(rest)?;
    let entity_octets = usize::from(lengths / 16 % 8 + 1);
    let sequence_octets = usize::from(lengths % 8 + 1);
    let (source, rest) = number_at(entity_octets, rest)?;
    let (sequence, rest) = number_at(sequence_octets, rest)?;
    let (destination, rest) = number_at(entity_octets, rest)?;
    let fixed_header = FixedHeader {
        first,
        size,
        lengths,
        source,
        sequence,
        destination,
    };
    Some((fixed_header, rest))
}

/// What is wrong with the header, or with the number of octets after it.
#[tactic(auto, unfolding(pdu_reading::specs::Reading::fixed_header_fault))]
pub fn fixed_header_fault(fixed_header: &FixedHeader, field: &[u8]) -> Option<DecodeFault>
    ensures { result ≡ fixed_header_fault fixed_header.now field.now }
{
    if fixed_header.first / 32 != 1 {
        Some(DecodeFault::BadVersion)
    } else if fixed_header.first / 2 % 2 == 1 {
        Some(DecodeFault::CrcPresent)
    } else if field.len() != usize::from(fixed_header.size) {
        Some(DecodeFault::LengthMismatch)
    } else {
        None
    }
}

/// The header that these numbers stand for.
#[tactic(auto, unfolding(pdu_reading::specs::FixedHeader::header_of))]
pub fn header_of(fixed_header: &FixedHeader) -> Header
    ensures { result ≡ header_of fixed_header.now }
{
    Header {
        direction: direction_of(fixed_header.first),
        class: class_of(fixed_header.first),
        large: fixed_header.is_large(),
        entity_octets: fixed_header.entity_octets(),
        sequence_octets: fixed_header.sequence_octets(),
        source: EntityId(fixed_header.source),
        sequence: fixed_header.sequence,
        destination: EntityId(fixed_header.destination),
    }
}

fn direction_of(first: u8) -> Direction
    ensures { result ≡ direction_of first }
{
    if first / 8 % 2 == 0 {
        Direction::TowardReceiver
    } else {
        Direction::TowardSender
    }
}

fn class_of(first: u8) -> Class
    ensures { result ≡ class_of first }
{
    if first / 4 % 2 == 0 {
        Class::Two
    } else {
        Class::One
    }
}
