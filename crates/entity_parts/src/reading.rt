ghost use Rattle.std.specs.Prelude.{◌≡◌, Ok, IfOk, IfErr};
ghost use Rattle.pdu_reading.specs.Reading.{reading};
ghost use Rattle.entity_parts.specs.Refusals.{IsNotRead};

use crate::refusal::EntityRefusal;
use entity_routing::RouteRefusal;
use lane_table::Refused;
use pdu_codec::{DecodeFault, Pdu, decode};
use std::alloc::Global;
use txn_events::Refusal;

/// Decodes a datagram. An error is the decoding fault as a route refusal, or NoMemory.
pub fn read_pdu(alloc: Global, octets: &[u8]) -> Result<Pdu, EntityRefusal>
    ensures read { IfOk result (λ pdu. reading octets.now ≡ Ok pdu) }
    ensures refused { IfErr result (IsNotRead (reading octets.now)) }
{
    match decode(alloc, octets) {
        Ok(pdu) => Ok(pdu),
        Err(DecodeFault::NoMemory) => Err(EntityRefusal::Lane(Refused {
            why: Refusal::NoMemory,
            echo: None,
        })),
        Err(fault) => Err(EntityRefusal::Route(RouteRefusal::DecodeFault(fault))),
    }
}
